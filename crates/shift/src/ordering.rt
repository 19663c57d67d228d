// Orders: given out for the first good move, and withdrawn.
ghost use Rattle.std.specs.Prelude.{◌≡◌, true, ⊤, IfOk};
ghost use Rattle.hopper.specs.Refusing.{Answers};
ghost use Rattle.shift.specs.Good.{FirstGoodMove};
ghost use Rattle.shift.specs.Checks.{is_open_order, order_checks};
ghost use Rattle.shift.specs.Answers.{OrderAnswers, WithdrawnAnswers};

use super::checks::marks_too_short;
use super::good::pours_good;
use super::{Order, Returned, Shift};
use game::Owner;
use hopper::{Board, Fault, Layer, Refusal, Vessel, pass};

impl Order {
    // Spends the order.
    pub(crate) fn spend(self) {
        let Order {
            shift: _,
            place: _,
            mv: _,
        } = self;
    }
}

impl Shift {
    // Which move is to be ordered: the lowest in number of those that stay good, if an order can be given out at all.
    fn first_good<B: Board, V: Vessel>(
        &self,
        board: &B,
        vessel: &V,
        marks: &[u32],
    ) -> Result<u32, Fault>
        ensures { Answers (order_checks (B.Board.game board.now) (V.Vessel.hopper vessel.now) marks.now self.now) (FirstGoodMove (V.Vessel.hopper vessel.now) marks.now self.now.level ((B.Board.game board.now).at self.now.place)) ⊤ result }
    {
        pass(&[
            self.order_still_open(),
            self.not_on_board(board, vessel),
            marks_too_short(board, vessel, marks),
            self.place_is(board, Owner::Theirs),
        ])?;
        let mut m = 0;
        // kept as it is: no plainer, a board hands out its moves one by one by number, and the number that `break` yields is the order's.
        let found = loop {
            let Some(edge) = board.step(self.place, m) else {
                return Err(Fault {
                    refusal: Refusal::NoGoodMove,
                    layer: Layer::Rest,
                    spot: self.place as u64,
                });
            };
            if pours_good(vessel, marks, self.level, edge) {
                break m;
            }
            m += 1;
        };
        Ok(found)
    }

    // Orders the move with the lowest number that is poured to a level which the marks call good.
    pub fn order<B: Board, V: Vessel>(
        &mut self,
        board: &B,
        vessel: &V,
        marks: &[u32],
    ) -> Result<Order, Fault>
        ensures answer { OrderAnswers (B.Board.game board.now) (V.Vessel.hopper vessel.now) marks.now self.old self.new result }
        ensures open { IfOk result (λ o. is_open_order self.new o ≡ true) }
    {
        let mv = self.first_good(board, vessel, marks)?;
        self.opened = Some(mv);
        Ok(Order {
            shift: self.number,
            place: self.place,
            mv,
        })
    }

    // Takes the open order back, and stays at place and level.
    pub fn withdrawn(&mut self, order: Order) -> Result<(), Returned>
        ensures { WithdrawnAnswers order self.old self.new result }
    {
        if let Err(fault) = pass(&[self.not_the_open_order(&order)]) {
            return Err(Returned { fault, order });
        }
        self.opened = None;
        order.spend();
        Ok(())
    }
}
