// A line in one row of text: how many places and moves it has, and its vessel.
ghost use Rattle.std.specs.Prelude.{Some};
ghost use Rattle.linefile.specs.Held.{line_held};
ghost use Rattle.linefile.specs.Texts.{line_text};

use super::FileLine;
use lineformat::Kind;
use std::fmt;

impl<'a> fmt::Display for FileLine<'a> {
    ghost output = { λ b. Some (line_text (line_held b)) };

    fn fmt<W: fmt::Write>(&self, f: &mut fmt::Formatter<W>) -> fmt::Result {
        let places = self.place_count();
        let moves = self.move_count();
        let top = self.top();
        let draw = self.draw();
        match self.kind() {
            Kind::Lip => write!(f, "line {places} places {moves} moves lip {top}"),
            Kind::Closed => write!(f, "line {places} places {moves} moves closed {top}"),
            Kind::Drawn => write!(f, "line {places} places {moves} moves drawn {top} {draw}"),
        }
    }
}
