//! The two lines that a server writes: its port, and at the end how much it served.

ghost use Rattle.std.specs.Prelude.{◌≡◌};
ghost use Rattle.proto.specs.Server.{listening_text, served_text};

use lines::Text;

/// Replaces the text by the line that has the port.
pub fn listening_line(port: u16, text: &mut Text)
    ensures { text.new ≡ listening_text port }
{
    text.clear();
    text.put(b"LISTENING ");
    text.put_number(u32::from(port));
    text.put(b"\n");
}

/// Replaces the text by the line that has how many connections were served, and the log's length.
pub fn served_line(connections: u32, log: u64, text: &mut Text)
    ensures { text.new ≡ served_text connections log }
{
    text.clear();
    text.put(b"SERVED ");
    text.put_number(connections);
    text.put(b" ");
    text.put_long(log);
    text.put(b"\n");
}
