// A line of the trace: a name with its equals sign, a value or a list, and a newline.
ghost use Rattle.std.specs.Prelude.{◌≡◌, map};
ghost use Rattle.text.specs.Line.{line_of};
ghost use Rattle.text.specs.Commas.{commas};
ghost use Rattle.trace_text.specs.Row.{row};

use text::{Line, Printed};

pub(crate) fn row<T: Printed>(name: &[u8], x: T) -> Line
    ensures { result ≡ line_of (row name.now (T.text x)) }
{
    let mut l = Line::new();
    l.push(name);
    x.print(&mut l);
    l.push(b"\n");
    l
}

pub(crate) fn list_row<T: Printed + Copy>(name: &[u8], xs: &[T]) -> Line
    ensures { result ≡ line_of (row name.now (commas (map T.text xs.now))) }
{
    let mut l = Line::new();
    l.push(name);
    l.push_list(xs);
    l.push(b"\n");
    l
}
