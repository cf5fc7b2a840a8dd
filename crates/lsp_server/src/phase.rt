//! The phases of a run of the server, and the errors that it answers.

/// How far the conversation with the client is.
#[derive(Clone, Copy, Debug, PartialEq, Eq)]
pub enum Phase {
    /// The client has not asked to initialize.
    New,
    /// Documents are open or may be.
    Open,
    /// The client has asked to shut down.
    Shut,
    /// The client has told the server to exit. It says whether it asked to shut down before.
    Ended(bool),
}

/// Why a request gets an error, as the protocol counts it.
#[derive(Clone, Copy, Debug, PartialEq, Eq)]
pub enum ErrorCode {
    /// The body is no JSON.
    NoJson,
    /// What came is no message, or its method is no text, or is not wanted now.
    InvalidRequest,
    /// The server has not been initialized.
    NotInitialized,
    /// The server does not know the method.
    UnknownMethod,
    /// The parameters have another form, or name a document that is not open.
    InvalidParams,
    /// There is no memory for the answer.
    Failed,
}
