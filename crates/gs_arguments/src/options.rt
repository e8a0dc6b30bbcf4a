//! The options of the program.
ghost use Rattle.std.specs.Prelude.{◌≡◌, false};
ghost use Rattle.clap.specs.Words.{rule_of};
ghost use Rattle.gs_arguments.specs.Options as spec;

use clap::{Arg, ArgAction};
use std::alloc::Global;

/// The text of help.
const HELP: &str = "\
Serves a graph store over HTTP: at an address, or one connection from standard
input to standard output.

Usage: gsd --listen ADDR [--base URL] [--workers N] [--piece N]
       gsd --once [--base URL] [--piece N]

  --listen ADDR  serve the connections to this address, as 127.0.0.1:8080
  --once         serve one connection over a new store, and end
  --base URL     http://HOST, which names begin with (default http://localhost)
  --workers N    requests at once, 1 to 256 (default 4)
  --piece N      lines of a piece of a reply, 1 to 4096 (default 256)
  -h, --help     show this text
";

/// Serve the connections to an address.
pub fn listen<'a>(alloc: Global) -> Arg<'a>
    ensures rule { rule_of result ≡ spec.listen }
    ensures local { result.global ≡ false }
{
    Arg::new(alloc, "listen").long("listen")
}

/// Serve one connection.
pub fn once<'a>(alloc: Global) -> Arg<'a>
    ensures rule { rule_of result ≡ spec.once }
    ensures local { result.global ≡ false }
{
    Arg::new(alloc, "once")
        .long("once")
        .action(ArgAction::SetTrue)
}

/// What the names of graphs begin with that the store makes up.
pub fn base<'a>(alloc: Global) -> Arg<'a>
    ensures rule { rule_of result ≡ spec.base }
    ensures local { result.global ≡ false }
{
    Arg::new(alloc, "base")
        .long("base")
        .default_value("http://localhost")
}

/// The workers of a server: so many connections are served at once.
pub fn workers<'a>(alloc: Global) -> Arg<'a>
    ensures rule { rule_of result ≡ spec.workers }
    ensures local { result.global ≡ false }
{
    Arg::new(alloc, "workers")
        .long("workers")
        .value_parser(clap::value_parser!(u16).range(1..=256))
        .default_value("4")
}

/// The lines of a piece: so many a chunk of a reply has.
pub fn piece<'a>(alloc: Global) -> Arg<'a>
    ensures rule { rule_of result ≡ spec.piece }
    ensures local { result.global ≡ false }
{
    Arg::new(alloc, "piece")
        .long("piece")
        .value_parser(clap::value_parser!(u32).range(1..=4096))
        .default_value("256")
}

/// The text that names each option.
pub fn help() -> &'static str
    ensures { result.now ≡ spec.help_text }
{
    HELP
}
