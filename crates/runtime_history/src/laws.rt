ghost use Rattle.runtime_history.specs.History.{AreLawful};

use crate::parts::Client;
use crate::room::Node;
use runtime_laws::every_run;

/// The laws of every run apply to all that a caller has seen.
pub fn laws_of<B: Node>(client: &Client<B>)
    ensures { AreLawful B.filter client.now.all }
{
    client.is_run();
    every_run();
}
