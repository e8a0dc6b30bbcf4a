//! What a request asks of the store.
ghost use Rattle.std.specs.Prelude.{◌≡◌, Some, IfOk};
ghost use Rattle.gs_talk.specs.Plans.{opens as opens_plan, plan_of as plan_of_asked, plan_on as plan_by};
ghost use Rattle.gs_session.specs.Plans.{plan_told};

use gs_event::{Scope, UploadKind};
use gs_term::Target;
use gs_verdict::{Asked, Method};
use std::alloc::AllocError;

/// What a request asks of the store. With an upload, a patch and a removal stands the commit number
/// since which the graph must not have been written, if there is one.
#[derive(Drop)]
pub enum Plan {
    Upload(UploadKind, Option<u64>),
    Patch(Target, Option<u64>),
    Delete(Target, Option<u64>),
    Look(Scope),
    Read(Scope),
    /// Nothing: the store itself is for GET, HEAD and POST.
    Nothing,
}

/// Whether its body is read, and not dropped.
pub fn opens(asked: &Asked) -> bool
    ensures { result ≡ opens_plan (plan_of_asked asked.now) }
{
    match (asked.method, &asked.graph) {
        (Method::Post, _) => true,
        (Method::Put, Some(_)) => true,
        (Method::Patch, Some(_)) => true,
        _ => false,
    }
}

/// What a request asks of a graph.
fn plan_on(method: Method, target: Target, since: Option<u64>) -> Plan
    ensures { plan_told result ≡ plan_by method (Some target) since }
{
    match method {
        Method::Get => Plan::Read(Scope::One(target)),
        Method::Head => Plan::Look(Scope::One(target)),
        Method::Put => Plan::Upload(UploadKind::Put(target), since),
        Method::Post => Plan::Upload(UploadKind::Post(target), since),
        Method::Delete => Plan::Delete(target, since),
        Method::Patch => Plan::Patch(target, since),
    }
}

/// What a request asks of the store, with a copy of its graph's name. The store itself has none.
pub fn plan_of(asked: &Asked) -> Result<Plan, AllocError>
    ensures { IfOk result (λ p. plan_told p ≡ plan_of_asked asked.now) }
{
    match (asked.method, &asked.graph) {
        (method, Some(target)) => Ok(plan_on(method, target.clone()?, asked.since)),
        (Method::Get, None) => Ok(Plan::Read(Scope::All)),
        (Method::Head, None) => Ok(Plan::Look(Scope::All)),
        (Method::Post, None) => Ok(Plan::Upload(UploadKind::New, None)),
        (_, None) => Ok(Plan::Nothing),
    }
}
