// Grammars as written: a text becomes an image.
ghost use Rattle.yarnspire.specs.Compile.{Compiles, ThreeNumbers};

use compiler::refusal::Refusal;

// Writes the image of a grammar's text to the front of the buffer, and says how many bytes it has; what lies past them keeps its values. Or refuses, with a
// number from 20 to 25 and the place in the text where the trouble is, and leaves the buffer as it is.
pub fn compile(text: &[u8], image: &mut [u8]) -> Result<u32, Refusal>
    ensures { Compiles text.now image.old image.new result }
{
    compiler::compile::compile(text, image)
}

// For C and Rust: compile, with number 0 where an image is written. Then `size` is how many bytes it has; `at` is the refusal's place. Each is 0 where it says
// nothing.
pub fn yarnspire_compile(
    text: &[u8],
    image: &mut [u8],
    number: &mut u32,
    size: &mut u32,
    at: &mut u32,
)
    ensures { ThreeNumbers text.now image.old image.new number.new size.new at.new }
{
    match compile(text, image) {
        Ok(n) => {
            *number = 0;
            *size = n;
            *at = 0;
        }
        Err(refusal) => {
            *number = refusal.slip.number();
            *size = 0;
            *at = refusal.place as u32;
        }
    }
}
