// The laws of a server.
ghost use Rattle.std.specs.Prelude.{◌≡◌};
ghost use Rattle.courses.specs.Claims.{Served, Server, ServerTables};

// It answers a number, so that an edit can turn it.
/// What a server passes and leaves, and its bounds.
pub fn server_stands() -> u8
    ensures value { result ≡ 0 }
    ensures law { Served × Server × ServerTables }
{
    0
}
