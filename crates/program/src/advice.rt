// What is said on standard error beside the page.
use crate::paths::path_of;
use cli_words::WordsErr;
use rel_path::Text;
use turbo_app::{Answer, Refusal};

/// Says what the page leaves out: that memory was wanting, what to do about a store that is not
/// read, and which word was refused. Whether it could be printed is not answered.
pub(crate) fn advise<R: Eprint>(rt: &R, words: &[Text], env: &[(Text, Text)], answer: &Answer) {
    match answer {
        Answer::OutOfMemory => say_out_of_memory(rt),
        Answer::Refused(Refusal::NotAStore { file } | Refusal::Damaged { file, at: _ }) => {
            let path = path_of(env, *file);
            let _ = eprintln!(rt; "turbo: delete {path}, and the next run begins a new store");
        }
        Answer::Refused(Refusal::Words(fault)) => show_word(rt, words, *fault),
        _ => {}
    }
}

pub(crate) fn say_out_of_memory<R: Eprint>(rt: &R) {
    let _ = eprintln!(rt; "turbo: out of memory");
}

// The word that was refused by its place.
fn show_word<R: Eprint>(rt: &R, words: &[Text], fault: WordsErr) {
    let (WordsErr::Unknown { at } | WordsErr::BadValue { at } | WordsErr::Twice { at }) = fault
    else {
        return;
    };
    if let Some(word) = words.get(at as usize) {
        let word = word.as_str();
        let _ = eprintln!(rt; "turbo: word {at} is {word:?}");
    }
}
