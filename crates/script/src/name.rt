// The names of commands.
ghost use Rattle.std.specs.Prelude.{◌≡◌};
ghost use Rattle.script.specs.Names.{spells, name_of};

// The commands by their names.
#[derive(Clone, Copy)]
pub enum Name {
    Kind,
    Size,
    Row,
    Line,
    RepriceRow,
    RepriceLine,
    Clear,
    Load,
    Settle,
    Reopen,
    Cost,
    Path,
    Between,
    Check,
}

// Whether the word is that text.
fn is(word: &[u8], text: &[u8]) -> bool
    ensures { result ≡ spells text.now word.now }
{
    word == text
}

// The command that the word names.
pub fn name_of_word(word: &[u8]) -> Option<Name>
    ensures { result ≡ name_of word.now }
{
    // an `if` for each name and no `match`, which is proved byte by byte: 87 goals, where this one leaves one
    if is(word, b"kind") {
        Some(Name::Kind)
    } else if is(word, b"size") {
        Some(Name::Size)
    } else if is(word, b"row") {
        Some(Name::Row)
    } else if is(word, b"line") {
        Some(Name::Line)
    } else if is(word, b"reprice-row") {
        Some(Name::RepriceRow)
    } else if is(word, b"reprice-line") {
        Some(Name::RepriceLine)
    } else if is(word, b"clear") {
        Some(Name::Clear)
    } else if is(word, b"load") {
        Some(Name::Load)
    } else if is(word, b"settle") {
        Some(Name::Settle)
    } else if is(word, b"reopen") {
        Some(Name::Reopen)
    } else if is(word, b"cost") {
        Some(Name::Cost)
    } else if is(word, b"path") {
        Some(Name::Path)
    } else if is(word, b"between") {
        Some(Name::Between)
    } else if is(word, b"check") {
        Some(Name::Check)
    } else {
        None
    }
}
