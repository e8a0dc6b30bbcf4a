//! A router that is known to lead to the places.
ghost use Rattle.std.specs.Prelude.{◌≡◌, IfOk};
ghost use Rattle.gs_names.specs.Routes.{LeadsToPlaces};

use crate::routes::{Route, find_place, routes};
use matchit::Router;
use std::alloc::{AllocError, Global};

/// The routes of the server's paths, made once.
#[derive(Drop)]
pub struct Places {
    router: Router<Route>,
    ghost leads: { LeadsToPlaces router },
}

impl Places {
    ghost use Rattle.gs_names.specs.Places.{place_of};

    /// The routes. They do not stand in one another's way, so it fails only for want of memory.
    pub fn new(alloc: Global) -> Result<Places, AllocError> {
        let Ok(router) = routes(alloc) else {
            return Err(AllocError);
        };
        Ok(Places { router })
    }

    /// What a path names.
    pub fn at(&self, path: &str) -> Option<Route>
        ensures { result ≡ place_of path.now }
    {
        find_place(&self.router, path)
    }
}
