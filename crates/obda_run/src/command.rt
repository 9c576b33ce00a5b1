//! The words of a command line.
ghost use Rattle.std.specs.Prelude.{◌≡◌, ◌↔◌, ℕ, Some, IsTrue, codes, map, string_bytes};
ghost use Rattle.obda_run.specs.Words.{NamesAnswer, IsSampleSize, NamesRun, NamesSample};

use itoa::Buffer;

/// What the words of a command line can name.
#[derive(Clone, Copy, Debug, PartialEq, Eq)]
pub(crate) enum Command {
    /// One document is answered.
    Answer,
    /// A script is run.
    Run,
    /// The sample script of this size is run over a host of its own.
    Sample(u32),
}

/// The command that the words name, where they name one.
pub(crate) fn command_of(words: &[String]) -> Option<Command>
    ensures answer { (result ≡ Some Command.Answer) ↔ NamesAnswer (map string_bytes words.now) }
    ensures run { (result ≡ Some Command.Run) ↔ NamesRun (map string_bytes words.now) }
    ensures sample { (size : ℕ) → (result ≡ Some (Command.Sample size)) ↔ NamesSample size (map string_bytes words.now) }
{
    match words {
        [word] if is_answer(word) => Some(Command::Answer),
        [word] if is_run(word) => Some(Command::Run),
        [word, size] if is_sample(word) => sample_of(size),
        _ => None,
    }
}

/// Whether the word is `answer`.
fn is_answer(word: &String) -> bool
    ensures { IsTrue result ↔ (string_bytes word.now ≡ codes "answer") }
{
    word.as_bytes() == b"answer".as_slice()
}

/// Whether the word is `run`.
fn is_run(word: &String) -> bool
    ensures { IsTrue result ↔ (string_bytes word.now ≡ codes "run") }
{
    word.as_bytes() == b"run".as_slice()
}

/// Whether the word is `sample`.
fn is_sample(word: &String) -> bool
    ensures { IsTrue result ↔ (string_bytes word.now ≡ codes "sample") }
{
    word.as_bytes() == b"sample".as_slice()
}

/// The sample of the size that the word tells, where it tells one.
fn sample_of(word: &String) -> Option<Command>
    ensures sample { (size : ℕ) → (result ≡ Some (Command.Sample size)) ↔ IsSampleSize size (string_bytes word.now) }
    ensures not_answer { result ≡ Some Command.Answer → ⊥ }
    ensures not_run { result ≡ Some Command.Run → ⊥ }
{
    let Ok(size) = word.as_str().parse::<u32>() else {
        return None;
    };
    if is_sample_size(word, size) {
        Some(Command::Sample(size))
    } else {
        None
    }
}

/// Whether the word is the decimal of this size, and a sample may have it.
fn is_sample_size(word: &String, size: u32) -> bool
    ensures { IsTrue result ↔ IsSampleSize size (string_bytes word.now) }
{
    let mut buffer = Buffer::new();
    1 <= size && size <= 2000 && word.as_bytes() == buffer.format(size).as_bytes()
}
