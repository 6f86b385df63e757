//! The words that are no names.

/// The words of forms of SQL that are not supported, in the order of their numbers from 1.
pub const UNSUPPORTED_WORDS: [&str; 34] = [
    "or",
    "not",
    "is",
    "between",
    "like",
    "glob",
    "regexp",
    "join",
    "as",
    "group",
    "having",
    "offset",
    "union",
    "distinct",
    "collate",
    "case",
    "cast",
    "returning",
    "on",
    "if",
    "replace",
    "desc",
    "float",
    "double",
    "real",
    "f32",
    "cosine",
    "exclusive",
    "alter",
    "pragma",
    "with",
    "attach",
    "vacuum",
    "default",
];

/// How many of the first unsupported words are no names.
pub const RESERVED_UNSUPPORTED: usize = 20;

/// The words of statements that would be read in two ways if they were names.
pub const STATEMENT_WORDS: [&str; 18] = [
    "and",
    "chunk_size",
    "false",
    "from",
    "in",
    "into",
    "limit",
    "match",
    "null",
    "order",
    "savepoint",
    "select",
    "set",
    "to",
    "transaction",
    "true",
    "values",
    "where",
];
