ghost use Rattle.std.specs.Prelude.{◌≡◌, Some, true, is_some, IfOk, OnErr};
ghost use Rattle.worker_core.specs.Kept.{grant_answer, grant_with};

use crate::answers::Answer;
use cri_msgs::Request;
use manifest::Uid;
use std::alloc::{AllocError, Global};
use worker_pod::PodState;

// A grant to a worker: the pod at this place, and its request.
#[derive(Drop)]
pub(crate) struct Grant {
    pub(crate) place: usize,
    pub(crate) uid: Uid,
    pub(crate) request: Request,
}

impl Grant {
    // The answer that grants it.
    pub(crate) fn answer(&self, alloc: Global) -> Result<Answer, AllocError>
        ensures { IfOk result (λ answer. answer ≡ grant_answer (Some self.now)) }
    {
        let uid = self.uid.try_clone(alloc)?;
        let request = self.request.try_clone(alloc)?;
        Ok(Answer::Claimed {
            uid,
            number: self.request.id,
            request,
        })
    }
}

// The request of the pod at this place, if it has one.
pub(crate) fn granted(
    alloc: Global,
    place: usize,
    state: &PodState,
    request: Option<Request>,
) -> Result<Option<Grant>, AllocError>
    ensures grant { IfOk result (λ grant. grant ≡ grant_with place state.now.pod.uid request) }
    ensures only { OnErr result (is_some (grant_with place state.now.pod.uid request) ≡ true) }
{
    let Some(request) = request else {
        return Ok(None);
    };
    let uid = state.view().pod.uid.try_clone(alloc)?;
    Ok(Some(Grant {
        place,
        uid,
        request,
    }))
}
