//! The law of the grammar.

ghost use Rattle.rx_grammar.specs.Laws.{PackagesDerive, HeadersDerive, DeclsDerive, ExprsDerive, NoTreeAtFault, NoFaultOfTree, OneFault};

/// Whatever has a tree is derived by the grammar, so at a fault no tree is a sentence. Answers nothing: its clauses are the law.
pub fn trees_derive()
    ensures package { PackagesDerive }
    ensures header { HeadersDerive }
    ensures declaration { DeclsDerive }
    ensures expression { ExprsDerive }
    ensures fault { NoTreeAtFault }
{}

/// The tokens of a package have a tree within the limits or one fault, and never both. Answers nothing: its clauses are the law.
pub fn one_answer()
    ensures tree { NoFaultOfTree }
    ensures fault { OneFault }
{}
