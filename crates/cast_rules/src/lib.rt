//! The rules by which a program becomes a term with casts: the elaboration, which casts it places and what types it
//! makes.
//!
//! The definitions stand in `specs`. A function here has an empty body: its contract is a law, proved for all programs.
#![tactic(auto)]

ghost use Rattle.std.specs.Prelude.{ℕ, List, ◌++◌, ◌≤◌};
ghost use Rattle.grift_base.specs.Types.{TypeRows};
ghost use Rattle.core_calc.specs.Terms.{Term};
ghost use Rattle.core_calc.specs.Typing.{Context, CellType, HasType};
ghost use Rattle.cast_rules.specs.Claims.{MakesProgramTerms, MakesEntriesThatFit};
ghost use Rattle.cast_rules.specs.Listed.{ListsItsCasts};

/// What the elaboration makes of a program that was read is a program term of its type, over the table of types that
/// it filled and with the labels that it listed: it has that type, binds each variable once, and has neither entered
/// calls nor values. Each entry of its list of casts names a label and types that there are, and stands behind the
/// cast directly inside. Each cast in the term, and each part taken of what Dyn holds, has its entry.
pub fn elaborated_programs_are_program_terms()
    ensures typed { MakesProgramTerms }
    ensures entries { MakesEntriesThatFit }
    ensures listed { ListsItsCasts }
{}

/// A term keeps its type where rows are added to the end of the table, and where there are more labels.
pub fn types_are_kept_as_tables_grow()
    ensures { (types more : TypeRows) (labels later : ℕ) (cells : List CellType) (context : Context) (term : Term)
        (type : ℕ) → labels ≤ later → HasType types labels cells context term type
        → HasType (types ++ more) later cells context term type }
{}
