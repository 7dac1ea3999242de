//! The messages of a server, to the byte: what `pgp_message` reads.
#![tactic(auto)]

mod copy;
mod extended;
mod item;
pub mod laws;
mod list_message;
mod list_message_of;
mod login;
mod notice;
mod row;
mod status;

pub use copy::{
    copy_data, copy_done, copy_in_response, copy_in_response_of, copy_out_response,
    copy_out_response_of,
};
pub use extended::{
    bind_complete, close_complete, no_data, parameter_description, parameter_description_of,
    parse_complete, portal_suspended,
};
pub use login::{
    authentication_cleartext_password, authentication_gss, authentication_gss_continue,
    authentication_kerberos_v5, authentication_md5_password, authentication_ok,
    authentication_sasl, authentication_sasl_continue, authentication_sasl_final,
    authentication_sasl_of, authentication_scm_credential, authentication_sspi, backend_key_data,
    negotiate_protocol_version, negotiate_protocol_version_of,
};
pub use notice::{
    ErrorField, error_response, error_response_of, notice_response, notice_response_of,
};
pub use row::{Column, data_row, data_row_of, row_description, row_description_of};
pub use status::{
    command_complete, empty_query_response, notification_response, parameter_status,
    ready_for_query,
};
