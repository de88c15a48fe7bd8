// One function for the theorem on serving: its contract is the theorem.
ghost use Rattle.serve.specs.Laws.{ServedInTurn};

// Words are served in turn, wherever a stream is cut.
pub fn served_in_turn()
    ensures { ServedInTurn }
{}
