//! Messages that a PostgreSQL server sends: cutting them off a stream, and what their bodies say.
#![tactic(auto)]

mod body;
mod dispatch;
mod found;
mod frame;
mod frames;
mod header;
mod in_place;
pub mod laws;
mod message;
mod name;
mod parser;
mod request;
mod row_index;
mod shared;
mod storage;
mod tag;
mod walk;

pub use body::{
    AuthenticationGssContinueBody, AuthenticationMd5PasswordBody, AuthenticationSaslBody,
    AuthenticationSaslContinueBody, AuthenticationSaslFinalBody, BackendKeyDataBody,
    CommandCompleteBody, CopyDataBody, CopyInResponseBody, CopyOutResponseBody, DataRowBody,
    ErrorResponseBody, NegotiateProtocolVersionBody, NoticeResponseBody, NotificationResponseBody,
    ParameterDescriptionBody, ParameterStatusBody, ReadyForQueryBody, RowDescriptionBody,
};
pub use found::Found;
pub use frames::read_frames;
pub use header::Header;
pub use in_place::Messages;
pub use message::Message;
pub use parser::FrameParser;
pub use row_index::{RowColumns, RowIndex, RowPlaces};
pub use storage::Storage;
pub use tag::{
    AUTHENTICATION_TAG, BACKEND_KEY_DATA_TAG, BIND_COMPLETE_TAG, CLOSE_COMPLETE_TAG,
    COMMAND_COMPLETE_TAG, COPY_DATA_TAG, COPY_DONE_TAG, COPY_IN_RESPONSE_TAG,
    COPY_OUT_RESPONSE_TAG, DATA_ROW_TAG, EMPTY_QUERY_RESPONSE_TAG, ERROR_RESPONSE_TAG,
    NEGOTIATE_PROTOCOL_VERSION_TAG, NO_DATA_TAG, NOTICE_RESPONSE_TAG, NOTIFICATION_RESPONSE_TAG,
    PARAMETER_DESCRIPTION_TAG, PARAMETER_STATUS_TAG, PARSE_COMPLETE_TAG, PORTAL_SUSPENDED_TAG,
    READY_FOR_QUERY_TAG, ROW_DESCRIPTION_TAG,
};
pub use walk::{
    ColumnFormats, DataRowRanges, ErrorField, ErrorFields, Field, Fields, Name, Parameters,
    ProtocolOptions, RawField, RawFields, RawMechanisms, RawOptions, ReadName, SaslMechanisms,
    range_at,
};
