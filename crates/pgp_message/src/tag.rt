//! The tags of backend messages.

/// A statement was parsed.
pub const PARSE_COMPLETE_TAG: u8 = b'1';

/// A portal was bound.
pub const BIND_COMPLETE_TAG: u8 = b'2';

/// A statement or a portal was closed.
pub const CLOSE_COMPLETE_TAG: u8 = b'3';

/// A notification from another session.
pub const NOTIFICATION_RESPONSE_TAG: u8 = b'A';

/// The data of a copy are complete.
pub const COPY_DONE_TAG: u8 = b'c';

/// A command is complete.
pub const COMMAND_COMPLETE_TAG: u8 = b'C';

/// Bytes of a copy.
pub const COPY_DATA_TAG: u8 = b'd';

/// A row.
pub const DATA_ROW_TAG: u8 = b'D';

/// An error.
pub const ERROR_RESPONSE_TAG: u8 = b'E';

/// The server is ready for the data of a copy.
pub const COPY_IN_RESPONSE_TAG: u8 = b'G';

/// The server is about to send the data of a copy.
pub const COPY_OUT_RESPONSE_TAG: u8 = b'H';

/// The query was empty.
pub const EMPTY_QUERY_RESPONSE_TAG: u8 = b'I';

/// What a later request to cancel has to show.
pub const BACKEND_KEY_DATA_TAG: u8 = b'K';

/// The version that the server speaks, in this project's profile of protocol 3.2; nothing is claimed of a server's 3.2.
pub const NEGOTIATE_PROTOCOL_VERSION_TAG: u8 = b'v';

/// A statement that gives no rows was described.
pub const NO_DATA_TAG: u8 = b'n';

/// A notice.
pub const NOTICE_RESPONSE_TAG: u8 = b'N';

/// A request for authentication, or word that there is none to come; its code reports which.
pub const AUTHENTICATION_TAG: u8 = b'R';

/// A portal has more rows than were asked for.
pub const PORTAL_SUSPENDED_TAG: u8 = b's';

/// A parameter of the session.
pub const PARAMETER_STATUS_TAG: u8 = b'S';

/// The types of the parameters of a statement.
pub const PARAMETER_DESCRIPTION_TAG: u8 = b't';

/// The columns of the rows to come.
pub const ROW_DESCRIPTION_TAG: u8 = b'T';

/// The server is ready for the next query.
pub const READY_FOR_QUERY_TAG: u8 = b'Z';
