ghost use Rattle.std.specs.Prelude.{◌≡◌, IfOk, IsAscii, OnOk, option_map};
ghost use Rattle.matchit.specs.Params.{walk};
ghost use Rattle.ht_api.specs.Routes as spec;
ghost use Rattle.ht_api.specs.Routes.{nth_of, paths, place_at, routed};
ghost use Rattle.ht_api.specs.Table.{paths_of, table, values_of, with_paths};

use crate::asked::Asked;
use crate::lists::{role_asked, which_asked};
use crate::numbers::{count_in, from_in, task_in};
use crate::refusal::ApiRefusal;
use ht_base::{Memory, Role, TaskId, Which};
use ht_wire::Request;
use http::Method;
use matchit::{InsertError, Params, Router};
use std::alloc::Global;
use std::marker::Model;
use std::str;

/// A path of the interface.
#[derive(Clone, Copy, Drop)]
pub(crate) enum Path {
    Tasks,
    Task,
    Operation,
    List,
    Notifications,
}

/// A path of the interface, with values that fit.
#[derive(Clone, Copy)]
pub(crate) enum Place {
    /// `/tasks`
    Tasks,
    /// `/tasks/{id}`
    Task(TaskId),
    /// `/tasks/{id}/{op}`
    Operation(TaskId, Asked),
    /// `/lists/{role}/{which}/{from}/{count}`
    List(Option<Role>, Which, u32, u32),
    /// `/notifications/{from}/{count}`
    Notifications(u32, u32),
}

/// The paths of the interface. They are the same whenever they are made, so a contract sees nothing of
/// them.
#[derive(Drop)]
pub struct Routes {
    router: Router<Path>,
}

impl Model for Routes {
    ghost use Rattle.std.specs.Prelude.{◌≡◌};
    ghost use Rattle.ht_api.specs.Table.{table};

    ghost Value = { Unit {0} };

    ghost view = { λ r. tt };

    ghost invariant = { λ r. r.router ≡ table };
}

impl Routes {
    pub fn new(alloc: Global) -> Result<Routes, Memory> {
        match table_router(alloc) {
            Ok(router) => Ok(Routes { router }),
            Err(_) => Err(Memory),
        }
    }

    /// The place that a request asks at, with the method of that place.
    pub(crate) fn place_of(&self, request: &Request) -> Result<Place, ApiRefusal>
        ensures { result ≡ routed request.now.method (spec.place_of request.now.target.items) }
    {
        match self.place_in(request.target.as_slice()) {
            Some(place) => by_method(&request.method, place),
            None => Err(ApiRefusal::Route),
        }
    }

    fn place_in(&self, target: &[u8]) -> Option<Place>
        ensures { result ≡ spec.place_of target.now }
    {
        if !target.is_ascii() {
            return None;
        }
        match str::from_utf8(target) {
            Ok(path) => match self.router.at(path) {
                Ok(found) => place_at(*found.value, &found.params),
                Err(_) => None,
            },
            Err(_) => None,
        }
    }
}

// The paths with what they are. What stands in braces is a part of its own.
fn all_paths() -> [(&'static str, Path); 5]
    ensures { paths_of result ≡ paths }
{
    [
        ("/lists/{role}/{which}/{from}/{count}", Path::List),
        ("/notifications/{from}/{count}", Path::Notifications),
        ("/tasks/{id}/{op}", Path::Operation),
        ("/tasks/{id}", Path::Task),
        ("/tasks", Path::Tasks),
    ]
}

fn table_router(alloc: Global) -> Result<Router<Path>, InsertError>
    ensures { IfOk result (λ r. r ≡ table) }
{
    let paths = all_paths();
    let mut router = Router::new(alloc);
    insert_all(&paths, &mut router)?;
    Ok(router)
}

fn insert_all(paths: &[(&'static str, Path)], router: &mut Router<Path>) -> Result<(), InsertError>
    ensures { OnOk result (with_paths (paths_of paths.now) router.old ≡ router.new) }
{
    for (text, path) in paths {
        router.insert(text, *path)?;
    }
    Ok(())
}

fn by_method(method: &Method, place: Place) -> Result<Place, ApiRefusal>
    ensures { result ≡ spec.by_method method.now place }
{
    if *method == method_of(place) {
        Ok(place)
    } else {
        Err(ApiRefusal::Method)
    }
}

fn method_of(place: Place) -> Method
    ensures { result ≡ spec.method_of place }
{
    match place {
        Place::Tasks => Method::POST,
        Place::Task(_) => Method::GET,
        Place::Operation(_, _) => Method::POST,
        Place::List(_, _, _, _) => Method::GET,
        Place::Notifications(_, _) => Method::GET,
    }
}

fn place_at(path: Path, params: &Params<'_, '_>) -> Option<Place>
    requires { IsAscii params.now.path.now }
    ensures { result ≡ place_at path (values_of (walk params.now.pattern.now params.now.text.now
        params.now.path.now params.now.names.now 0 0)) }
{
    match path {
        Path::Tasks => Some(Place::Tasks),
        Path::Task => {
            let task = task_in(part(params, 0)?)?;
            Some(Place::Task(task))
        }
        Path::Operation => {
            let task = task_in(part(params, 0)?)?;
            let asked = Asked::named(part(params, 1)?)?;
            Some(Place::Operation(task, asked))
        }
        Path::List => {
            let role = role_asked(part(params, 0)?)?;
            let which = which_asked(part(params, 1)?)?;
            let from = from_in(part(params, 2)?)?;
            let count = count_in(part(params, 3)?)?;
            Some(Place::List(role, which, from, count))
        }
        Path::Notifications => {
            let from = from_in(part(params, 0)?)?;
            let count = count_in(part(params, 1)?)?;
            Some(Place::Notifications(from, count))
        }
    }
}

// The part of the path that a parameter took.
fn part<'v>(params: &Params<'_, 'v>, at: usize) -> Option<&'v str>
    requires { IsAscii params.now.path.now }
    ensures { option_map (λ p. p.now) result
        ≡ nth_of at (values_of (walk params.now.pattern.now params.now.text.now params.now.path.now
        params.now.names.now 0 0)) }
{
    let mut left = at;
    for (_, value) in params.iter() {
        if left == 0 {
            return Some(value);
        }
        left -= 1;
    }
    None
}
