//! What the clauses of `run` give together, on lines with errors and on lines that were smoothed. Each function does nothing: what
//! it ensures is the law.
ghost use Rattle.std.specs.Prelude.{ℕ, Option, List};
ghost use Rattle.pdh_chain.specs.declared.chain.Chain.{Chain};
ghost use Rattle.pdh_runner.specs.Operation.{Files};
ghost use Rattle.pdh_ops.specs.Rejoined.{FileComesBack};
ghost use Rattle.pdh_ops.specs.MadeAgain.{MakesAgain};

/// What `mux` wrote of its files, disturbed before some bit, gives each leaf's file back by `demux`, from
/// a stated bit on, where each node on the way to the leaf is quiet from its own rejoining place on.
pub fn leaves_get_their_files_back()
    ensures file { (chain : Chain) (feac : Option ℕ) (files : Files) (line bent output : List ℕ)
        (leaf e u : ℕ) (quiet : List ℕ) →
        FileComesBack chain feac files line bent output leaf e u quiet }
{}

/// What `smooth` wrote of a line of one multiplexer, taken as leaves and schedule, `mux` doesn't refuse: no node and no leaf is
/// short, and no store overflows or underflows.
pub fn smoothed_lines_are_made_again()
    ensures made { (chain : Chain) (feac : Option ℕ) (line : List ℕ) (files : Files) → MakesAgain chain feac line files }
{}
