//! What a path and a method ask for.
ghost use Rattle.std.specs.Prelude.{◌≡◌, Some, None, if◌then◌else◌, bytes_eq};
ghost use Rattle.http_requests.specs.Routes.{route_of, has_body};

use crate::Path;
use http::Method;

/// What a request asks for, before its body is read: the number of the session, and that of the cursor.
#[derive(Clone, Copy, Debug, PartialEq, Eq)]
pub enum Route {
    OpenSession,
    CloseSession(u32),
    Statement(u32),
    OpenCursor(u32),
    Fetch(u32, u32),
    CloseCursor(u32, u32),
    Shutdown,
}

impl Route {
    /// Whether the route has a body.
    pub fn has_body(self) -> bool
        ensures { result ≡ has_body self }
    {
        match self {
            Route::Statement(_) => true,
            Route::OpenCursor(_) => true,
            Route::Fetch(_, _) => true,
            _ => false,
        }
    }
}

/// The route where the method is the one that the path has.
fn when_same(method: &[u8], wanted: &Method, route: Route) -> Option<Route>
    ensures { result ≡ (if bytes_eq method.now wanted.now then Some route else None) }
{
    if method == wanted.as_str().as_bytes() {
        Some(route)
    } else {
        None
    }
}

/// What a path and a method ask for, if the path has the method.
pub fn route_of(path: Path, method: &[u8]) -> Option<Route>
    ensures exact { result ≡ route_of path method.now }
{
    let (post, delete) = (Method::POST, Method::DELETE);
    match path {
        Path::Sessions => when_same(method, &post, Route::OpenSession),
        Path::Session(session) => when_same(method, &delete, Route::CloseSession(session)),
        Path::Statements(session) => when_same(method, &post, Route::Statement(session)),
        Path::Cursors(session) => when_same(method, &post, Route::OpenCursor(session)),
        Path::Cursor(session, cursor) => {
            when_same(method, &delete, Route::CloseCursor(session, cursor))
        }
        Path::Rows(session, cursor) => when_same(method, &post, Route::Fetch(session, cursor)),
        Path::Shutdown => when_same(method, &post, Route::Shutdown),
    }
}
