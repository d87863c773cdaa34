// Verdicts as text.
ghost use Rattle.std.specs.Prelude.{◌≡◌, ℕ, List, ◌++◌, string_bytes, OnOk};
ghost use Rattle.verdict.specs.Text.{yesno_text, margin_text, span_text};

use crate::kind::Kind;
use crate::margin::Margin;
use crate::span::Span;
use crate::yesno::YesNo;
use std::alloc::AllocError;

// A kind whose verdicts can be printed.
pub trait Printed: Kind {
    ghost text: { Self → List ℕ };

    // Adds the verdict's text to what is written so far.
    fn write(self, out: &mut String) -> Result<(), AllocError>
        ensures { OnOk result (string_bytes out.new ≡ string_bytes out.old ++ text self) };
}

impl Printed for YesNo {
    ghost text = { yesno_text };

    fn write(self, out: &mut String) -> Result<(), AllocError> {
        let letter = match self {
            YesNo::Yes => "y",
            YesNo::No => "n",
        };
        out.push_str(letter)
    }
}

impl Printed for Margin {
    ghost text = { margin_text };

    fn write(self, out: &mut String) -> Result<(), AllocError> {
        let value = self.value();
        write!(out, "{value}")
    }
}

impl<K: Printed> Printed for Span<K> {
    ghost text = { span_text K.Printed.text };

    fn write(self, out: &mut String) -> Result<(), AllocError> {
        self.low.write(out)?;
        out.push_str("..")?;
        self.high.write(out)
    }
}
