// Moves: an order reported done, and the moves of the other side.
ghost use Rattle.std.specs.Prelude.{◌≡◌};
ghost use Rattle.hopper.specs.Boards.{step_at};
ghost use Rattle.hopper.specs.Refusing.{verdict};
ghost use Rattle.shift.specs.Checks.{done_checks, arrived_checks};
ghost use Rattle.shift.specs.Answers.{moved, DoneAnswers, ArrivedAnswers};

use super::{Order, Returned, Shift};
use game::Owner;
use hopper::{Board, Fault, Vessel, pass};

impl Shift {
    // Checks whether the order can be reported done.
    fn check_done<B: Board, V: Vessel>(
        &self,
        board: &B,
        vessel: &V,
        order: &Order,
    ) -> Result<(), Fault>
        ensures { result ≡ verdict (done_checks (B.Board.game board.now) (V.Vessel.hopper vessel.now) self.now order.now) }
    {
        pass(&[
            self.not_the_open_order(order),
            self.not_on_board(board, vessel),
            self.place_is(board, Owner::Theirs),
            self.no_such_move(board, order.mv),
            self.vessel_refuses(board, vessel, order.mv),
        ])
    }

    // Checks whether their move can be reported.
    fn check_arrived<B: Board, V: Vessel>(
        &self,
        board: &B,
        vessel: &V,
        mv: u32,
    ) -> Result<(), Fault>
        ensures { result ≡ verdict (arrived_checks (B.Board.game board.now) (V.Vessel.hopper vessel.now) self.now mv) }
    {
        pass(&[
            self.order_still_open(),
            self.not_on_board(board, vessel),
            self.place_is(board, Owner::Ours),
            self.no_such_move(board, mv),
            self.vessel_refuses(board, vessel, mv),
        ])
    }

    // Goes on to the move's target and the level that it is poured to, with no order open.
    fn go_on<B: Board, V: Vessel>(&mut self, board: &B, vessel: &V, mv: u32)
        ensures { self.new ≡ moved (V.Vessel.hopper vessel.now).table self.old (step_at ((B.Board.game board.now).at self.old.place) mv) }
    {
        if let Some(edge) = board.step(self.place, mv)
            && let Some(poured) = vessel.pour(self.level, edge.amount)
        {
            self.place = edge.target;
            self.level = poured;
            self.opened = None;
        }
    }

    // Reports the ordered move done: it is poured, and the shift goes on to its target.
    pub fn done<B: Board, V: Vessel>(
        &mut self,
        board: &B,
        vessel: &V,
        order: Order,
    ) -> Result<(), Returned>
        ensures { DoneAnswers (B.Board.game board.now) (V.Vessel.hopper vessel.now) order self.old self.new result }
    {
        if let Err(fault) = self.check_done(board, vessel, &order) {
            return Err(Returned { fault, order });
        }
        self.go_on(board, vessel, order.mv);
        order.spend();
        Ok(())
    }

    // Reports a move of the other side: it is poured, and the shift goes on to its target.
    pub fn arrived<B: Board, V: Vessel>(
        &mut self,
        board: &B,
        vessel: &V,
        mv: u32,
    ) -> Result<(), Fault>
        ensures { ArrivedAnswers (B.Board.game board.now) (V.Vessel.hopper vessel.now) mv self.old self.new result }
    {
        self.check_arrived(board, vessel, mv)?;
        self.go_on(board, vessel, mv);
        Ok(())
    }
}
