//! The words of a batch.

ghost use Rattle.std.specs.Prelude.{◌≡◌, ◌≤◌, true, false, length, map, IfNone, IfSome};
ghost use Rattle.std.specs.List.{list_all};
ghost use Rattle.std.specs.String.{string_bytes};
ghost use Rattle.batch_top.specs.Words.{are_names, callers_in, is_batch, is_name, names_in};

use job_callers::MOST_JOBS;

/// The greatest number of bytes of a name.
const MOST_BYTES: usize = 4096;

/// What the words of a batch ask for.
#[derive(Clone, Copy)]
pub struct Asked<'a> {
    /// 1 to 8.
    pub callers: usize,
    /// 1 to 256 names of files.
    pub names: &'a [String],
}

/// What the words ask for: one digit, 1 to 8, is the number of callers, and behind it stand 1 to 256
/// names of 1 to 4,096 bytes that do not begin with `-`. `None` where the words are something else.
pub fn read(words: &[String]) -> Option<Asked<'_>>
    ensures none { IfNone result (is_batch (map string_bytes words.now) ≡ false) }
    ensures batch { IfSome result (λ asked. is_batch (map string_bytes words.now) ≡ true) }
    ensures names { IfSome result (λ asked. map string_bytes asked.names.now ≡ names_in (map string_bytes words.now)) }
    ensures callers { IfSome result (λ asked. (1 ≤ asked.callers) × (asked.callers ≤ 8)) }
    ensures few { IfSome result (λ asked. length asked.names.now ≤ 256) }
{
    let Some((callers, names)) = words.split_first() else {
        return None;
    };
    match callers_in(callers.as_bytes()) {
        Some(callers) => with_names(callers, names),
        None => None,
    }
}

/// What so many callers and these names ask for. `None` where they are no names of files.
fn with_names(callers: usize, names: &[String]) -> Option<Asked<'_>>
    ensures none { IfNone result (are_names (map string_bytes names.now) ≡ false) }
    ensures names { IfSome result (λ asked. are_names (map string_bytes names.now) ≡ true) }
    ensures own { IfSome result (λ asked. (asked.callers ≡ callers) × (asked.names.now ≡ names.now)) }
    ensures few { IfSome result (λ asked. length asked.names.now ≤ 256) }
{
    if are_names(names) {
        Some(Asked { callers, names })
    } else {
        None
    }
}

/// The number of callers that a word gives.
fn callers_in(word: &[u8]) -> Option<usize>
    ensures own { result ≡ callers_in word.now }
    ensures range { IfSome result (λ callers. (1 ≤ callers) × (callers ≤ 8)) }
{
    match word {
        [digit @ b'1'..=b'8'] => Some(usize::from(*digit - b'0')),
        _ => None,
    }
}

/// Whether these are names of the files of a batch.
fn are_names(names: &[String]) -> bool
    ensures { result ≡ are_names (map string_bytes names.now) }
{
    if names.is_empty() {
        return false;
    }
    if names.len() > MOST_JOBS as usize {
        return false;
    }
    each_is_name(names)
}

/// Whether each of these is a name of a file.
fn each_is_name(names: &[String]) -> bool
    ensures { result ≡ list_all (λ name. is_name (string_bytes name)) names.now }
{
    names.iter().all(|name| is_name(name.as_bytes()))
}

/// Whether this is a name of a file.
fn is_name(name: &[u8]) -> bool
    ensures { result ≡ is_name name.now }
{
    !name.is_empty() && name.len() <= MOST_BYTES && name[0] != b'-'
}
