//! The routes of the server's paths.
ghost use Rattle.std.specs.Prelude.{◌≡◌, IfOk};
ghost use Rattle.gs_names.specs.Places.{place_of};
ghost use Rattle.gs_names.specs.Routes.{LeadsToPlaces};

use matchit::{InsertError, Router};
use std::alloc::Global;

/// What a path names.
#[derive(Clone, Copy, Debug, PartialEq)]
pub enum Route {
    /// `/store`: the store, or a graph that the query names.
    Store,
    /// `/graphs/` and more: a graph that the path names.
    Graphs,
}

/// The router of both places.
pub fn routes(alloc: Global) -> Result<Router<Route>, InsertError>
    ensures { IfOk result LeadsToPlaces }
{
    let mut router = Router::new(alloc);
    router.insert("/store", Route::Store)?;
    router.insert("/graphs/{*rest}", Route::Graphs)?;
    Ok(router)
}

/// What a path names.
pub fn find_place(router: &Router<Route>, path: &str) -> Option<Route>
    requires { LeadsToPlaces router.now }
    ensures { result ≡ place_of path.now }
{
    match router.at(path) {
        Ok(found) => Some(*found.value),
        Err(_) => None,
    }
}
