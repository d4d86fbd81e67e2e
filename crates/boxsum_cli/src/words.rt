//! The words of the command line.
ghost use Rattle.std.specs.Prelude.{◌≡◌, IfSome, drop, map, string_bytes};
ghost use Rattle.std.specs.Vec.Iter.{into_iter_items};
ghost use Rattle.boxsum_cli.specs.Words.{SpansBeginSo, begins_with_spans};

use std::alloc::Global;
use std::env::Args;

/// The words behind the program's name, as they are and in their order; none where there is no memory for them.
pub(crate) fn words_behind(alloc: Global, args: Args) -> Option<Vec<String>>
    ensures { IfSome result (λ words. words.items ≡ drop 1 (into_iter_items args)) }
{
    let mut args = args;
    let _name = args.next();
    let mut words = Vec::new(alloc);
    while let Some(word) = args.next() {
        if words.push(word).is_err() {
            return None;
        }
    }
    Some(words)
}

/// The first word is that of a command on the files of the spans.
pub(crate) fn is_for_spans(words: &[String]) -> bool
    ensures { result ≡ begins_with_spans (map string_bytes words.now) }
{
    match words.first() {
        Some(word) => word.as_str() == "spans" || word.as_str() == "spanrun",
        None => false,
    }
}

/// Proves that words that ask for a command begin so exactly where that is one on the files of the spans; it does nothing when it runs.
pub(crate) fn spans_begin_so()
    ensures { SpansBeginSo }
{}
