// Laws about the definitions.

ghost use Rattle.form_table.specs.Laws.{ReadsEachForm, ReadsFormsAlone, FormsAreOne, ReadsEachProgram};
ghost use Rattle.form_table.specs.Laws.{ReadsProgramsAlone, ProgramsAreOne};

/// The walk answers a form exactly where the table has one, and that one; no s-expression is two forms.
pub fn the_walk_reads_the_table_of_forms()
    ensures each { ReadsEachForm }
    ensures alone { ReadsFormsAlone }
    ensures one { FormsAreOne }
{}

/// The walk answers a program exactly where the table has one, and that one; no s-expressions are two programs.
pub fn the_walk_reads_the_table_of_programs()
    ensures each { ReadsEachProgram }
    ensures alone { ReadsProgramsAlone }
    ensures one { ProgramsAreOne }
{}
