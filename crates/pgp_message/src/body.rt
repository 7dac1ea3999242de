//! The bodies of backend messages. Each shares the bytes of its frame, and copies none.

mod authentication;
mod copy;
mod counted;
mod notice;
mod notification;
mod query;
mod startup;
mod status;

pub use authentication::{
    AuthenticationGssContinueBody, AuthenticationMd5PasswordBody, AuthenticationSaslBody,
    AuthenticationSaslContinueBody, AuthenticationSaslFinalBody,
};
pub use copy::{CopyDataBody, CopyInResponseBody, CopyOutResponseBody};
pub use notice::{ErrorResponseBody, NoticeResponseBody};
pub use notification::NotificationResponseBody;
pub use query::{CommandCompleteBody, DataRowBody, ParameterDescriptionBody, RowDescriptionBody};
pub use startup::{BackendKeyDataBody, NegotiateProtocolVersionBody};
pub use status::{ParameterStatusBody, ReadyForQueryBody};
