ghost use Rattle.std.specs.Prelude.{◌≡◌, [], IfOk, None, OnErr, OnOk, Some, option_map, if◌then◌else◌};
ghost use Rattle.manifest.specs.Texts.{is_uid};
ghost use Rattle.pod_folder.specs.Naming.{counted_in, known_in, pods_named, place_of_name};
ghost use Rattle.pod_folder.specs.Naming.{next_place};
ghost use Rattle.pod_folder.specs.Uids.{uid_text};

use crate::uids::uid_for;
use manifest::{Label, Pod, PodName, Uid};
use std::alloc::{AllocError, Global};
use std::marker::Model;

/// How many pods of a name were admitted.
#[derive(Debug, Drop)]
pub struct Count {
    pub namespace: Label,
    pub name: PodName,
    pub pods: u32,
}

/// Makes the uids of pods whose manifests set none: from the namespace, the name, how many pods had that name
/// in this run of the program, and the run's own name.
#[derive(Drop)]
pub struct Naming<'a> {
    alloc: Global,
    run: Option<&'a str>,
    counts: Vec<Count>,
}

impl<'a> Model for Naming<'a> {
    ghost use Rattle.std.specs.Prelude.{option_map};
    ghost use Rattle.pod_folder.specs.Naming.{Names};

    ghost Value = { Names };

    ghost view = { λ n. record { run = option_map (λ r. r.now) n.run; counts = n.counts.items } };
}

// The place of the count of this pod's name.
fn place_of_name(counts: &[Count], pod: &Pod) -> Option<usize>
    ensures { result ≡ place_of_name counts.now pod.now }
{
    counts.iter().position(|count| {
        count.name.as_str() == pod.name.as_str()
            && count.namespace.as_str() == pod.namespace.as_str()
    })
}

// How many pods of this pod's name were admitted.
fn pods_named(counts: &[Count], pod: &Pod) -> u32
    ensures { result ≡ pods_named counts.now pod.now }
{
    match place_of_name(counts, pod) {
        Some(place) => match counts.get(place) {
            Some(count) => count.pods,
            None => 0,
        },
        None => 0,
    }
}

impl<'a> Naming<'a> {
    /// For a run of this name, in which no pod was named yet.
    pub fn new(alloc: Global, run: Option<&'a str>) -> Naming<'a>
        ensures { result ≡ record { run = option_map (λ r. r.now) run.entry; counts = [] } }
    {
        Naming {
            alloc,
            run,
            counts: Vec::new(alloc),
        }
    }

    pub(crate) fn alloc(&self) -> Global {
        self.alloc
    }

    /// The run's name.
    pub fn run(&self) -> Option<&'a str>
        ensures { option_map (λ r. r.now) result ≡ self.now.run }
    {
        self.run
    }

    /// The uid for the next pod of this pod's name. `None` if it would be too long, or the run's name can't
    /// be a part of a uid.
    pub fn uid(&self, pod: &Pod) -> Result<Option<Uid>, AllocError>
        ensures { IfOk result (λ uid. uid ≡ (if is_uid
            (uid_text pod.now (next_place self.now.counts pod.now) self.now.run)
            then Some (uid_text pod.now (next_place self.now.counts pod.now) self.now.run) else None)) }
    {
        let pods = pods_named(&self.counts, pod);
        uid_for(self.alloc, pod, pods.saturating_add(1), self.run)
    }

    /// Makes room to count a pod of this pod's name. No count changes.
    pub fn reserve(&mut self, pod: &Pod) -> Result<(), AllocError>
        ensures ok { OnOk result (self.new ≡ record {
          run = self.old.run;
          counts = known_in self.old.counts pod.now;
        }) }
        ensures err { OnErr result (self.new ≡ self.old) }
    {
        if place_of_name(&self.counts, pod).is_some() {
            return Ok(());
        }
        let namespace = pod.namespace.try_clone(self.alloc)?;
        let name = pod.name.try_clone(self.alloc)?;
        self.counts.push(Count {
            namespace,
            name,
            pods: 0,
        })?;
        Ok(())
    }

    /// Counts a pod of this pod's name, for which there is room: its uid is taken from now on.
    pub fn count(&mut self, pod: &Pod)
        ensures { self.new ≡ record { run = self.old.run; counts = counted_in self.old.counts pod.now } }
    {
        if let Some(place) = place_of_name(&self.counts, pod) {
            if let Some(count) = self.counts.get_mut(place) {
                count.pods = count.pods.saturating_add(1);
            }
        }
    }
}
