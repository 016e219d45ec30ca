ghost use Rattle.std.specs.Prelude.{◌≡◌, ◌-◌, ◌<◌, ◌^◌, IfOk, length, string_bytes};
ghost use Rattle.slint_base.specs.Refusals.{at_start, refusal_line, refusal_of};

use crate::{Fault, Memory, Place, Rule, Span, Text};
use std::alloc::Global;

/// Why a source is refused, as it is told: the rule that a file of it breaks, and where.
#[derive(Debug, Drop)]
pub struct Refusal {
    pub rule: Rule,
    /// The file's name.
    pub file: Text,
    /// Where the stretch that breaks the rule begins.
    pub from: Place,
    /// The place just past that stretch.
    pub to: Place,
}

/// The fault of a rule that a file breaks as a whole: an empty stretch at the file's start.
pub fn at_start(rule: Rule, file: u32) -> Fault
    ensures { result ≡ at_start rule file }
{
    Fault {
        rule,
        span: Span {
            file,
            start: 0,
            end: 0,
        },
    }
}

impl Refusal {
    /// The refusal for a fault in a file of this name and these bytes.
    pub fn of_fault(
        alloc: Global,
        name: &str,
        bytes: &[u8],
        fault: Fault,
    ) -> Result<Refusal, Memory>
        requires { length bytes.now < 2 ^ 32 - 1 }
        ensures { IfOk result (λ refusal. refusal ≡ refusal_of name.now bytes.now fault) }
    {
        let file = Text::from_str(alloc, name)?;
        Ok(Refusal {
            rule: fault.rule,
            file,
            from: Place::of_byte(bytes, fault.span.start),
            to: Place::of_byte(bytes, fault.span.end),
        })
    }

    /// The line that tells the refusal, `refused RULE FILE L:C-L:C`, without its line feed.
    pub fn line(&self, alloc: Global) -> Result<String, Memory>
        ensures { IfOk result (λ line. string_bytes line ≡ refusal_line self.now) }
    {
        let number = self.rule.number();
        let file = self.file.as_str();
        let (from, to) = (self.from, self.to);
        let line = format!(in alloc;
            "refused {number} {file} {}:{}-{}:{}",
            from.line, from.column, to.line, to.column
        )?;
        Ok(line)
    }
}
