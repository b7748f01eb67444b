// Laws of lowering. A function here does nothing: its contract is a law, proved for all programs.

ghost use Rattle.std.specs.Prelude.{◌≡◌, true, ℕ, List, length};
ghost use Rattle.grift_base.specs.Types.{TypeRow};
ghost use Rattle.flat_ir.specs.Bodies.{Proc as FlatProc};
ghost use Rattle.flat_ir.specs.Closed.{is_closed as is_closed_flat};
ghost use Rattle.low_ir.specs.Closed.{each_closed, is_closed};
ghost use Rattle.low_ir.specs.Procedures.{Proc};
ghost use Rattle.lowered_code.specs.declared.served.Served.{Served};
ghost use Rattle.lowered_code.specs.Lowered.{lowered};
ghost use Rattle.lowered_code.specs.Serving.{Serve};

/// The procedures over words of a closed flat program are closed and begin with the one behind the flat program's,
/// whatever procedures serve them: those have only to stand there by the numbers that were told, to take as many words
/// as they are handed, and to be closed there themselves.
pub fn lowered_programs_are_closed()
    ensures { (run : Served) (flat : List FlatProc) (entry : ℕ) (answer : TypeRow) (serving : List Proc)
        → is_closed_flat flat entry ≡ true → Serve run (lowered run flat entry answer serving)
        → each_closed (lowered run flat entry answer serving) serving ≡ true
        → is_closed (lowered run flat entry answer serving) (length flat) ≡ true }
{}
