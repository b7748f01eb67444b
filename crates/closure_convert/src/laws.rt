// Laws of closure conversion. Each function has an empty body: its contract is a law, proved for all terms.

ghost use Rattle.std.specs.Prelude.{◌≡◌, ◌≤◌, ◌++◌, Bool, cond, false, length, true, ℕ, List};
ghost use Rattle.std.specs.List.{list_all};
ghost use Rattle.run_laws.specs.{Accounts.{FollowsWithin}, Runs.{Any, FollowsBy, NeverWrong}};
ghost use Rattle.type_graph.specs.TypeTables.{HaveWidths, IsOrderedTable};
ghost use Rattle.grift_base.specs.{Tables.{HasNoRepeats}, Types.{TypeRows}};
ghost use Rattle.core_calc.specs.{Account.{Measures, account, extent, measures_of}, Calculus.{Program}};
ghost use Rattle.core_calc.specs.{Substitution.{is_among}, Typing.{ProgramTermHasType}};
ghost use Rattle.cast_modes.specs.{AnswerTypes.{Told}, Modes.{TypeCast, piling}};
ghost use Rattle.coercion_norm.specs.{Coercions.{Coercion}, MergedMode.{merging}};
ghost use Rattle.coer_core.specs.Counts.{each_once, free_names, free_names_of_members, names_besides, run_in, told_of};
ghost use Rattle.coer_core.specs.{MergedTally.{merged_tally_in}, Tally.{tally_in}};
ghost use Rattle.coer_core.specs.{Terms.{RowMembers, RowTerm, core_of}, TurnPrices.{merged_prices, piled_prices}};
ghost use Rattle.flat_ir.specs.{Bodies.{Proc}, Closed.{is_closed}, Counts.{flat_run_in, flat_turn_words}};
ghost use Rattle.flat_ir.specs.{Levels.{HaveLevels}, Machine.{FlatState}};
ghost use Rattle.flat_ir.specs.FlatTally.{FlatBelow, FlatPaidBelow, cost_of_turn, flat_tally_in};
ghost use Rattle.closure_convert.specs.{Bounds.{CountsKept}, Conversion.{captures, converted, made}};
ghost use Rattle.closure_convert.specs.{KeptTallies.{KeepsTally, PaysTally}, Free.{is_free, is_free_in_a_member}};
ghost use Rattle.closure_convert.specs.Uses.{has_words, term_uses};

/// The procedures of a term that reads back to a program term are closed where no type is too wide, and where numbers
/// and labels of parts of Dyn in the term are words; and no name is free in the term.
pub fn procedures_of_program_terms_are_closed()
    ensures closed { (casts : List TypeCast) (types : TypeRows) (labels : ℕ) (term : RowTerm) (type : ℕ)
        → HaveWidths types → ProgramTermHasType types labels (core_of casts term) type
        → list_all has_words (term_uses term) ≡ true → is_closed (converted term) (made term) ≡ true }
    ensures names { (casts : List TypeCast) (types : TypeRows) (labels : ℕ) (term : RowTerm) (type : ℕ)
        → ProgramTermHasType types labels (core_of casts term) type
        → (name : ℕ) → is_among name (free_names term) ≡ false }
{}

/// The run of a term's procedures follows the run of the term with environments, for every term without free names, all
/// casts and every input, in both modes, where the given run never goes wrong. At moments that correspond both have
/// made as many wrap steps; the procedures have asked for no more words, have no more active frames, and have made at
/// most two turns for each turn, and one.
pub fn procedures_follow_their_term()
    ensures piled { (casts : List TypeCast) (told : Told) (term : RowTerm) (input : List ℕ)
        → ((name : ℕ) → is_among name (free_names term) ≡ false)
        → NeverWrong (run_in (piling told.types casts) told term input)
        → FollowsBy CountsKept Any
        (flat_run_in (converted term) (made term) (piling told.types casts) told input)
        (run_in (piling told.types casts) told term input) }
    ensures merged { (casts : List TypeCast) (told : Told) (term : RowTerm) (input : List ℕ)
        → ((name : ℕ) → is_among name (free_names term) ≡ false)
        → NeverWrong (run_in (merging told.types casts) told term input)
        → FollowsBy CountsKept Any
        (flat_run_in (converted term) (made term) (merging told.types casts) told input)
        (run_in (merging told.types casts) told term input) }
{}

/// The run of a term's procedures keeps within the account of the term's run, for every term without free names, with
/// all measures, in both modes, where the given run never goes wrong. At moments that correspond the procedures have
/// made no more acts, which are turns that make a step, and at most one body that is a name or a constant for each act
/// of the term, and one; they have asked for no more words, those of the next turn with them, the next turn asks for no
/// more, and no more frames are active. Where they have come to what the term's run has come to, the budgets of their
/// turns, in instructions, are no more, with 64 for each act of the term, and for one.
pub fn procedures_keep_within_their_terms_account()
    ensures piled { (casts : List TypeCast) (m : Measures) (told : Told) (term : RowTerm) (input : List ℕ)
        → ((name : ℕ) → is_among name (free_names term) ≡ false)
        → NeverWrong (run_in (piling told.types casts) told term input)
        → let mode = piling told.types casts in
        FollowsWithin KeepsTally PaysTally
        (flat_tally_in (converted term) (made term) mode (piled_prices mode m) told input)
        (tally_in mode m told term input) }
    ensures merged { (casts : List TypeCast) (m : Measures) (told : Told) (term : RowTerm) (input : List ℕ)
        → ((name : ℕ) → is_among name (free_names term) ≡ false)
        → NeverWrong (run_in (merging told.types casts) told term input)
        → let mode = merging told.types casts in
        FollowsWithin KeepsTally PaysTally
        (flat_tally_in (converted term) (made term) mode (merged_prices told.types mode m) told input)
        (merged_tally_in told.types mode m told term input) }
{}

/// No turn of procedures makes objects of more words than it asks for: in each state, in the piled mode with all
/// measures, and in the merged mode with measures of a width of 1 or more.
pub fn procedures_ask_for_what_they_make()
    ensures piled { (types : TypeRows) (casts : List TypeCast) (m : Measures) (procs : List Proc)
        (state : FlatState TypeCast) → let mode = piling types casts in
        flat_turn_words procs mode state.focus state.frames
        ≤ (cost_of_turn procs mode (piled_prices mode m) state).asks }
    ensures merged { (types : TypeRows) (casts : List TypeCast) (m : Measures) (procs : List Proc)
        (state : FlatState Coercion) → 1 ≤ m.width → let mode = merging types casts in
        flat_turn_words procs mode state.focus state.frames
        ≤ (cost_of_turn procs mode (merged_prices types mode m) state).asks }
{}

/// So the procedures of each program term keep within the account of the calculus. Wherever they have come to, the
/// calculus has come to the same output after n steps for some n, and the words that they have asked for, those of the
/// next turn with them, are at most the charges of n + 1 steps; the next turn asks for no more than the charge of step
/// n + 1; and at most `depth(n) + 1` frames are active, or in the merged mode, over types without cycles, `depth(n) +
/// 2`. Wherever the calculus has come to, they come to it, and then the budgets of their turns, in instructions, are at
/// most 64 times `work(n)`, with 64 to spare for each step and 960 for the start.
pub fn procedures_keep_the_account()
    ensures piled { (casts : List TypeCast) (program : Program) (term : RowTerm) (input : List ℕ) (type : ℕ)
        → program.term ≡ core_of casts term
        → ProgramTermHasType program.types (length program.labels) program.term type
        → let mode = piling program.types casts in
        FollowsWithin (FlatBelow 1) FlatPaidBelow
        (flat_tally_in (converted term) (made term) mode (piled_prices mode (measures_of program))
        (told_of program type) input) (account program input) }
    ensures merged { (casts : List TypeCast) (program : Program) (term : RowTerm) (input : List ℕ) (type : ℕ)
        → program.term ≡ core_of casts term
        → ProgramTermHasType program.types (length program.labels) program.term type
        → IsOrderedTable program.types
        → let mode = merging program.types casts in
        FollowsWithin (FlatBelow 2) FlatPaidBelow
        (flat_tally_in (converted term) (made term) mode (merged_prices program.types mode (measures_of program))
        (told_of program type) input) (account program input) }
{}

/// At each place of a procedure of a program term at most as many local names are bound, its parameters among them, as
/// the term has nodes and binders.
pub fn procedures_have_few_levels()
    ensures { (casts : List TypeCast) (types : TypeRows) (labels : ℕ) (term : RowTerm) (type : ℕ)
        → ProgramTermHasType types labels (core_of casts term) type
        → HaveLevels (extent (core_of casts term)) (converted term) }
{}

/// A group captures the names that are bound outside it and free in one of its members, each once. They stand in order
/// of first appearance: names that appear in a first part stand before those that first appear behind it.
pub fn captured_names_are_free_in_a_member()
    ensures free { (names : List ℕ) (members : RowMembers) (name : ℕ)
        → is_among name (captures names members)
        ≡ cond (is_among name names) false (is_free_in_a_member name members) }
    ensures once { (names : List ℕ) (members : RowMembers) → HasNoRepeats (captures names members) }
    ensures met { (names : List ℕ) (members : RowMembers)
        → captures names members ≡ each_once (names_besides names (free_names_of_members members)) }
    ensures order { (first rest : List ℕ)
        → each_once (first ++ rest) ≡ each_once first ++ names_besides first (each_once rest) }
{}

/// The names of a term's list of free names are those that are free in it.
pub fn free_names_are_free()
    ensures { (term : RowTerm) (name : ℕ) → is_among name (free_names term) ≡ is_free name term }
{}
