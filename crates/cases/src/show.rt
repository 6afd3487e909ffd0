// Prints a case's name with what a public function of `yarnspire` gives for it. Each call is lent nine slot numbers, each 7.
use std::io;
use yarnspire::{Answer, Limits, Recognition};

// An input that an image is to recognise within limits.
#[derive(Clone, Copy)]
pub struct Case<'a> {
    pub name: &'a [u8],
    pub image: &'a [u8],
    pub input: &'a [u8],
    pub limits: Limits,
}

impl Case<'_> {
    // Recognise.
    pub fn recognise(self, out: &impl Print) -> io::Result<()> {
        let mut slots = [7u32; 9];
        let answer = yarnspire::recognise(self.image, self.input, self.limits, &mut slots);
        answered(out, self.name, answer, &slots)
    }

    // Recognise, with as many slots as the greatest limits ask for, each 7; the first nine are printed.
    pub fn ample(self, out: &impl Print) -> io::Result<()> {
        let mut slots = [7u32; 768];
        let answer = yarnspire::recognise(self.image, self.input, self.limits, &mut slots);
        answered(out, self.name, answer, &slots[..9])
    }

    // Accepted text: the part handed back, and the answer's six numbers in 01's order.
    pub fn text(self, out: &impl Print) -> io::Result<()> {
        let mut slots = [7u32; 9];
        let Recognition { answer, text } = yarnspire::accepted_text(
            self.image,
            self.input,
            self.limits,
            &mut slots,
        );
        out.write_all(self.name)?;
        out.write_all(b": text \"")?;
        out.write_all(text)?;
        out.write_all(b"\", ")?;
        match answer {
            Answer::Accepted {
                consumed,
                steps,
                depth,
                symbols,
            } => print!(out; "0 {consumed} {steps} {depth} {symbols} 0")?,
            Answer::Failed { steps, depth } => print!(out; "99 0 {steps} {depth} 0 0")?,
            Answer::Refused {
                refusal,
                place,
                steps,
                depth,
            } => print!(out; "{} 0 {steps} {depth} 0 {place}", refusal.number())?,
        }
        ended(out, &slots)
    }
}

// The slot numbers, and the line's end.
fn ended(out: &impl Print, slots: &[u32]) -> io::Result<()> {
    print!(out; ", slots")?;
    for n in slots {
        print!(out; " {n}")?;
    }
    print!(out; "\n")
}

// An answer, and the slots after it.
pub fn answered(out: &impl Print, name: &[u8], answer: Answer, slots: &[u32]) -> io::Result<()> {
    out.write_all(name)?;
    match answer {
        Answer::Accepted {
            consumed,
            steps,
            depth,
            symbols,
        } => print!(out; ": accept {consumed} steps {steps} depth {depth} symbols {symbols}")?,
        Answer::Failed { steps, depth } => print!(out; ": fail steps {steps} depth {depth}")?,
        Answer::Refused {
            refusal,
            place,
            steps,
            depth,
        } => {
            let number = refusal.number();
            print!(out; ": refuse {number} place {place} steps {steps} depth {depth}")?;
        }
    }
    ended(out, slots)
}

// Check.
pub fn check(out: &impl Print, name: &[u8], image: &[u8]) -> io::Result<()> {
    out.write_all(name)?;
    match yarnspire::check(image) {
        Ok(()) => println!(out; ": good"),
        Err(refusal) => {
            let number = refusal.fault.number();
            println!(out; ": refuse {number} place {}", refusal.place)
        }
    }
}
