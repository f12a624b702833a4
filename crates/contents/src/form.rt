// The word in front of a box's numbers: 0 where each is a word, 1 where one has more than 64 bits and each is four words.
ghost use Rattle.std.specs.Prelude.{MatchResult};
ghost use Rattle.contents.specs.Form.{IsNumbers, IsNone};

// Each number is one word.
pub const ONE_WORD: u64 = 0;

// Each number is four words.
const FOUR_WORDS: u64 = 1;

// Why there are no numbers of a word each.
#[derive(Clone, Copy, PartialEq, Eq, Debug)]
pub enum NoNumbers {
    // each is four words
    Wide,
    // they are no numbers
    Other,
}

// The numbers behind the form, if each is a word.
pub fn numbers(words: &[u64]) -> Result<&[u64], NoNumbers>
    ensures { MatchResult result (λ numbers. IsNumbers words.now numbers.now) (λ reason. IsNone words.now reason) }
{
    let Some((form, numbers)) = words.split_first() else {
        return Err(NoNumbers::Other);
    };
    match *form {
        ONE_WORD => Ok(numbers),
        FOUR_WORDS => Err(NoNumbers::Wide),
        _ => Err(NoNumbers::Other),
    }
}
