//! Where the reader stands in the grammar.

/// Which declaration is begun.
#[derive(Clone, Copy, Debug, PartialEq, Eq)]
pub enum Head {
    Axiom,
    Definition,
    Record,
}

/// Which term of a declaration is read.
#[derive(Clone, Copy, Debug, PartialEq, Eq)]
pub enum Part {
    AxiomType,
    DefinitionType,
    DefinitionBody,
    ParameterType,
    FieldType,
}

/// Which binder is read.
#[derive(Clone, Copy, Debug, PartialEq, Eq)]
pub enum Binder {
    Forall,
    Fun,
}

/// What of `Type@{k}` comes next.
#[derive(Clone, Copy, Debug, PartialEq, Eq)]
pub enum SortStep {
    Universe,
    At,
    Brace,
    Number,
    Unbrace,
}

/// What comes next.
#[derive(Clone, Copy, Debug, PartialEq, Eq)]
pub enum State {
    /// A declaration, or the end.
    Begin,
    /// The name that is declared.
    Name(Head),
    /// The colon before a term.
    Colon(Part),
    /// A parameter of a record, or the colon before its sort.
    Header,
    /// The variable of a parameter.
    Parameter,
    /// The sort of a record.
    RecordSort(SortStep),
    /// `:=` before the maker.
    Becomes,
    /// The maker's name.
    Maker,
    /// The brace before the fields.
    Fields,
    /// The first field, or the brace behind the fields.
    FirstField,
    /// A further field.
    NextField,
    /// The end of a record.
    RecordEnd,
    /// A term.
    Term,
    /// The variable of a binder.
    Variable(Binder),
    /// The colon behind the variable of a binder.
    VariableColon(Binder),
    /// The rest of a sort.
    Sort(SortStep),
    /// What goes on behind an argument.
    After,
    /// The name of a projected field.
    Field,
    /// The parenthesis behind it.
    FieldEnd,
}
