// Converts the journal on standard input to the other form, to its end or its first refusal, in
// constant memory. Records go to standard output, the line of a refusal to standard error.
#![tactic(auto)]

ghost use Rattle.printer.specs.declared.Channel.TheVariants as C;
ghost use Rattle.converter.specs.Converter.{refusal_by, ConversionGoes, ConversionRests, Ran};
ghost use Rattle.converter.specs.Conversions.{conversion_laws};

use console::rounds::{Ended, Machine, Stepped, run_keeping};
use journal_forms::Form;
use printer::Channel;
use std::rt::HostRuntime;
use text::memory::put_line;

// A journal of this form, which is converted to the other.
#[derive(Clone, Copy)]
pub struct Conversion {
    from: Form,
}

impl Machine for Conversion {
    ghost goes = { ConversionGoes };

    ghost rests = { ConversionRests };

    ghost ending = { λ m refused place. refusal_by refused place };

    ghost channel = { λ m refused. C.Errors };

    ghost laws = { conversion_laws };

    fn step(&mut self, s: &[u8], out: &mut [u8]) -> Stepped {
        let converted = journal_forms::convert(self.from, s, out);
        Stepped {
            at: converted.at,
            n: converted.n,
            more: converted.more,
            refused: converted.refused.map(journal_forms::number),
        }
    }

    // The line of a refusal, where there is one.
    fn put_ending(&self, refused: Option<u8>, place: u64, out: &mut [u8]) -> usize {
        match refused {
            Some(number) => put_line(out, 0, report::refused_line(number, place)),
            None => 0,
        }
    }

    fn ending_on(&self, _refused: Option<u8>) -> Channel {
        Channel::Errors
    }
}

// Converts the journal on standard input, which has this form, to the other. `name` is that of the
// program, for what it says of input and output that fail.
pub fn convert(rt: &HostRuntime, name: &[u8], from: Form) -> Ended
    ensures { Ran from result }
{
    let mut conversion = Conversion { from };
    run_keeping(rt, name, &mut conversion)
}
