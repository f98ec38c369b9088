//! What the words ask for.

/// What the words ask for: a row of the usage text with its values.
#[derive(Drop)]
pub enum Job {
    /// Compile the files in order, and write each entry to the named files.
    Compile {
        steps: Option<u64>,
        rocq: Option<String>,
        listing: Option<String>,
        files: Vec<String>,
    },
    /// Compile the files in order, then save the library.
    Save {
        steps: Option<u64>,
        lib: String,
        files: Vec<String>,
    },
    /// Read a core text, and add its declarations.
    Core {
        steps: Option<u64>,
        file: String,
    },
    /// Compare two hierarchies, then compile each client over both.
    Refactor {
        steps: Option<u64>,
        old: String,
        new: String,
        clients: Vec<String>,
    },
    /// Compile the generated commands.
    Sample {
        number: u64,
        size: u16,
    },
    /// Print the sentences of a source.
    Show {
        file: String,
    },
    /// Compile the files in order, then save a certificate.
    Certify {
        steps: Option<u64>,
        cert: String,
        files: Vec<String>,
    },
    /// Check a certificate.
    Verify {
        cert: String,
    },
}
