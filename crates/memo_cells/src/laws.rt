ghost use Rattle.memo_cells.specs.Core.{ClosureLaw, CodeLaw, CoreLaw};

/// What holds of every memo, as plain data: its words, and what each of its passes knows. From no filled cell and one pass that knows nothing it is lawful
/// after any loads, publishings, splits and joins: each word is 0 or the code of the verdict of its question, what passes know is filled, and with the
/// cell of a question those of the questions that its verdict asks for. In a lawful memo, all cells of its closure are filled with it.
pub fn core_law()
    ensures lawful { CoreLaw }
    ensures codes { CodeLaw }
    ensures closures { ClosureLaw }
{}
