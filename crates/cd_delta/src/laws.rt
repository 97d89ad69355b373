//! The law of diagonals, the contract of a function that does nothing.

ghost use Rattle.cd_delta.specs.Laws.{OneDiagonal};

/// Each byte in a row and a column of a plane is in only one diagonal, at the index of its column
/// (ECMA-130, Annex A).
pub fn one_diagonal()
    ensures { OneDiagonal }
{}
