//! What holds of the definitions: a function that does nothing, whose clause is a law.

ghost use Rattle.std.specs.Prelude.{◌≡◌};
ghost use Rattle.ooo_code.specs.declared.design.Design.{Design as DesignSpec};
ghost use Rattle.ooo_tables.specs.declared.tables.Tables.{Tables as TablesSpec};
ghost use Rattle.ooo_tables.specs.Tables.{AreTables};

/// A design has one set of tables.
pub fn one_tables()
    ensures { (d : DesignSpec) (s t : TablesSpec) → AreTables d s → AreTables d t → s ≡ t }
{}
