// The lines that are printed, each written behind what a text has. A `write!` would leave open when it fails.

ghost use Rattle.std.specs.Prelude.{◌≡◌, ◌++◌, ◌+◌, ◌≤◌};
ghost use Rattle.std.specs.Option.{option_to_list};
ghost use Rattle.arrayvec.specs.ArrayString.{array_string_len};
ghost use Rattle.report.specs.Printed.{line_text, lines_text, total_text};
ghost use Rattle.report.specs.Inner.{HasRoom};

use crate::{Printed, Text};
use text::{append_decimal, append_next};

impl Printed {
    #[tactic(auto, unfolding(crate::specs::Printed::line_text))]
    fn append_to(self, text: &mut Text)
        requires { HasRoom text.old }
        ensures line { text.new.bytes ≡ text.old.bytes ++ line_text self }
        ensures short { array_string_len text.new ≤ array_string_len text.old + 96 }
    {
        match self {
            Printed::Refused => text.push_str("refused"),
            Printed::Played {
                number,
                outputs,
                multiplies,
                level,
            } => {
                append_decimal(text, number);
                append_next(text, outputs);
                append_next(text, multiplies);
                append_next(text, level);
            }
        }
        text.push_str("\n");
    }
}

// Writes a line, if there is one.
#[tactic(auto, unfolding(crate::specs::Printed::lines_text))]
pub fn append_line(text: &mut Text, printed: Option<Printed>)
    requires { HasRoom text.old }
    ensures line { text.new.bytes ≡ text.old.bytes ++ lines_text (option_to_list printed) }
    ensures short { array_string_len text.new ≤ array_string_len text.old + 96 }
{
    if let Some(line) = printed {
        line.append_to(text);
    }
}

#[tactic(auto, unfolding(crate::specs::Printed::total_text))]
pub fn append_total(text: &mut Text, outputs: u64, multiplies: u64)
    requires { HasRoom text.old }
    ensures totals { text.new.bytes ≡ text.old.bytes ++ total_text outputs multiplies }
    ensures short { array_string_len text.new ≤ array_string_len text.old + 96 }
{
    text.push_str("total");
    append_next(text, outputs);
    append_next(text, multiplies);
    text.push_str("\n");
}
