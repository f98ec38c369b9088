//! Names of files on the command line: how many there may be, and what their endings say.
ghost use Rattle.std.specs.Prelude.{◌≡◌, map, not, string_bytes};
ghost use Rattle.std.specs.List.{list_all};
ghost use Rattle.hb_words.specs.Jobs as spec;

/// How many files follow the first, at most.
const MORE_FILES: usize = 63;

/// How many clients follow the two hierarchies, at most.
const MOST_CLIENTS: usize = 62;

/// Whether a name is that of a library.
pub(crate) fn is_library(name: &str) -> bool
    ensures { result ≡ spec.is_library name.now }
{
    name.as_bytes().ends_with(b".hbl")
}

/// Whether a name is that of a certificate.
pub(crate) fn is_certificate(name: &str) -> bool
    ensures { result ≡ spec.is_certificate name.now }
{
    name.as_bytes().ends_with(b".hbcert")
}

/// Whether the names are those of at most `most` sources.
fn are_sources(names: &[String], most: usize) -> bool
    ensures { result ≡ spec.are_sources most (map string_bytes names.now) }
{
    names.len() <= most && are_no_libraries(names)
}

/// Whether no name is that of a library.
fn are_no_libraries(names: &[String]) -> bool
    ensures { result ≡ list_all (λ name. not (spec.is_library name)) (map string_bytes names.now) }
{
    match names {
        [] => true,
        [first, rest @ ..] => !is_library(first.as_str()) && are_no_libraries(rest),
    }
}

/// Whether the names are those of files that are compiled in order: at least one and at most 64, of which
/// the first alone may be a library.
pub(crate) fn are_files(names: &[String]) -> bool
    ensures { result ≡ spec.are_files (map string_bytes names.now) }
{
    match names {
        [] => false,
        [_, rest @ ..] => are_sources(rest, MORE_FILES),
    }
}

/// Whether the names are those of the clients of two hierarchies.
pub(crate) fn are_clients(names: &[String]) -> bool
    ensures { result ≡ spec.are_sources 62 (map string_bytes names.now) }
{
    are_sources(names, MOST_CLIENTS)
}
