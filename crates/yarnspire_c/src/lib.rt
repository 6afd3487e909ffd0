// Yarnspire for C and Rust: the static library. Each function here is exported under its own name, calls the function of that name in `yarnspire` and promises
// what that one promises. To C a slice is a pointer and a length; include/yarnspire.h declares all three.
#![tactic(auto)]

ghost use Rattle.yarnspire.specs.Answer.{numbers};
ghost use Rattle.yarnspire.specs.Compile.{ThreeNumbers};
ghost use Rattle.yarnspire.specs.Promise.{Numbers, Answers};

// Check, with number 0 and place 0 for good.
#[unsafe(no_mangle)]
pub extern "C" fn yarnspire_check(image: &[u8], number: &mut u32, place: &mut u32)
    ensures { Numbers image.now number.new place.new }
{
    yarnspire::yarnspire_check(image, number, place);
}

// Recognise, with the answer in six numbers as `accepted_text` writes them. The accepted text is the input's first `consumed` bytes.
#[unsafe(no_mangle)]
pub extern "C" fn yarnspire_recognise(
    image: &[u8],
    input: &[u8],
    steps: u32,
    depth: u32,
    room: u32,
    slots: &mut [u32],
    kind: &mut u32,
    consumed: &mut u32,
    count: &mut u32,
    deepest: &mut u32,
    symbols: &mut u32,
    place: &mut u32,
)
    ensures { Answers image.now input.now steps depth room slots.old slots.new
        (numbers kind.new consumed.new count.new deepest.new symbols.new place.new) }
{
    yarnspire::yarnspire_recognise(
        image, input, steps, depth, room, slots, kind, consumed, count, deepest, symbols, place,
    );
}

// Compile, with number 0 where an image is written. Then `size` is how many bytes it has; `at` is the refusal's place. Each is 0 where it says nothing.
#[unsafe(no_mangle)]
pub extern "C" fn yarnspire_compile(
    text: &[u8],
    image: &mut [u8],
    number: &mut u32,
    size: &mut u32,
    at: &mut u32,
)
    ensures { ThreeNumbers text.now image.old image.new number.new size.new at.new }
{
    yarnspire::yarnspire_compile(text, image, number, size, at);
}
