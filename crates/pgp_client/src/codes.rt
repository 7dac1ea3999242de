//! Requests and stages as numbers, by which a caller in C keeps a dialogue.

ghost use Rattle.std.specs.Prelude.{◌≡◌};
ghost use Rattle.pgp_client.specs.Codes.{request_at, request_code, stage_at, stage_code};

use crate::request::Request;
use crate::stage::Stage;

impl Request {
    /// The request's number, from 0 in the order of the variants.
    pub fn code(self) -> u8
        ensures code { result ≡ request_code self }
        ensures back { request_at result ≡ self }
    {
        match self {
            Request::Startup => 0,
            Request::Query => 1,
            Request::Parse => 2,
            Request::Bind => 3,
            Request::Close => 4,
            Request::DescribeStatement => 5,
            Request::DescribePortal => 6,
            Request::Execute => 7,
            Request::FunctionCall => 8,
            Request::Sync => 9,
            Request::CopyDone => 10,
            Request::CopyFail => 11,
        }
    }

    /// The request of this number; `CopyFail` for all above 11.
    pub fn of_code(code: u8) -> Request
        ensures { result ≡ request_at code }
    {
        match code {
            0 => Request::Startup,
            1 => Request::Query,
            2 => Request::Parse,
            3 => Request::Bind,
            4 => Request::Close,
            5 => Request::DescribeStatement,
            6 => Request::DescribePortal,
            7 => Request::Execute,
            8 => Request::FunctionCall,
            9 => Request::Sync,
            10 => Request::CopyDone,
            _ => Request::CopyFail,
        }
    }
}

impl Stage {
    /// The stage's number, from 0 in the order of the variants.
    pub fn code(self) -> u8
        ensures code { result ≡ stage_code self }
        ensures back { stage_at result ≡ self }
    {
        self as u8
    }

    /// The stage of this number; `Over` for a number that no stage has.
    pub fn of_code(code: u8) -> Stage
        ensures { result ≡ stage_at code }
    {
        match code {
            0 => Stage::Idle,
            1 => Stage::Skipping,
            3 => Stage::Authenticating,
            4 => Stage::Starting,
            5 => Stage::Asked,
            6 => Stage::Answering,
            7 => Stage::Rows,
            8 => Stage::CopyingIn,
            9 => Stage::CopyingOut,
            10 => Stage::CopyingBoth,
            11 => Stage::CopiedBoth,
            12 => Stage::Parsing,
            13 => Stage::Binding,
            14 => Stage::Closing,
            15 => Stage::Describing,
            16 => Stage::DescribingRows,
            17 => Stage::Executing,
            18 => Stage::Returning,
            19 => Stage::TakingCopy,
            20 => Stage::GivingCopy,
            21 => Stage::GaveCopy,
            22 => Stage::Calling,
            23 => Stage::Called,
            24 => Stage::Syncing,
            25 => Stage::Failed,
            _ => Stage::Over,
        }
    }
}
