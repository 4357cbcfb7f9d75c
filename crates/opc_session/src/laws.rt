//! What the definitions of moves and rounds say by themselves.
ghost use Rattle.std.specs.Prelude.{◌≡◌, ℕ, List, length};
ghost use Rattle.opc_base.specs.declared.moves.Move.{Move};
ghost use Rattle.opc_base.specs.declared.moves.Moved.{Moved};
ghost use Rattle.opc_base.specs.declared.moves.RoundSummary.{RoundSummary};
ghost use Rattle.opc_session.specs.Runs.{AreAlikeButRun};
ghost use Rattle.opc_session.specs.Sessions.{MakesMoves, MakesRound, SessionValue, error_at};

/// The side of tiles and the number of workers change no error, no answer and no offset: sessions that differ in nothing
/// else have the same errors, and a list of moves or a round gives the same in each and leaves them alike.
pub fn tiles_and_workers_change_nothing()
    ensures errors { (s t : SessionValue) (i : ℕ) → AreAlikeButRun s t → error_at s i ≡ error_at t i }
    ensures moves { (old new other next : SessionValue) (moves : List Move) (answers others : List Moved) (before after from to : ℕ)
        → length answers ≡ length moves → length others ≡ length moves → AreAlikeButRun old other
        → MakesMoves old new moves answers before after → MakesMoves other next moves others from to
        → (answers ≡ others) × AreAlikeButRun new next }
    ensures round { (old new other next : SessionValue) (a b : RoundSummary) (before after from to : ℕ) → AreAlikeButRun old other
        → MakesRound old new a before after → MakesRound other next b from to → (a ≡ b) × AreAlikeButRun new next }
{}
