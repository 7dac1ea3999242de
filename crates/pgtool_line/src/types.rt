//! The types that each server has, by their numbers: written by `python3 expected/types.py`.

ghost use Rattle.std.specs.Prelude.{◌≡◌};
ghost use Rattle.std.specs.Option.{option_map};
ghost use Rattle.pgtool_line.specs.Types.{from_1005, from_1019, from_1114, from_1562, from_2211, from_271, from_2951, from_30, from_3645, from_3909, from_4192, from_5069, from_701, type_of};

/// The name of a type, where it is one of the server's own.
#[tactic(auto, unfolding(crate::specs::Types::type_of))]
pub fn type_of(oid: u32) -> Option<&'static str>
    ensures { option_map (λ name. name.now) result ≡ type_of oid }
{
    match oid {
        16 => Some("bool"),
        17 => Some("bytea"),
        18 => Some("char"),
        19 => Some("name"),
        20 => Some("int8"),
        21 => Some("int2"),
        22 => Some("int2vector"),
        23 => Some("int4"),
        24 => Some("regproc"),
        25 => Some("text"),
        26 => Some("oid"),
        27 => Some("tid"),
        28 => Some("xid"),
        29 => Some("cid"),
        _ => from_30(oid),
    }
}

fn from_30(oid: u32) -> Option<&'static str>
    ensures { option_map (λ name. name.now) result ≡ from_30 oid }
{
    match oid {
        30 => Some("oidvector"),
        32 => Some("pg_ddl_command"),
        71 => Some("pg_type"),
        75 => Some("pg_attribute"),
        81 => Some("pg_proc"),
        83 => Some("pg_class"),
        114 => Some("json"),
        142 => Some("xml"),
        143 => Some("_xml"),
        194 => Some("pg_node_tree"),
        199 => Some("_json"),
        210 => Some("_pg_type"),
        269 => Some("table_am_handler"),
        270 => Some("_pg_attribute"),
        _ => from_271(oid),
    }
}

fn from_271(oid: u32) -> Option<&'static str>
    ensures { option_map (λ name. name.now) result ≡ from_271 oid }
{
    match oid {
        271 => Some("_xid8"),
        272 => Some("_pg_proc"),
        273 => Some("_pg_class"),
        325 => Some("index_am_handler"),
        600 => Some("point"),
        601 => Some("lseg"),
        602 => Some("path"),
        603 => Some("box"),
        604 => Some("polygon"),
        628 => Some("line"),
        629 => Some("_line"),
        650 => Some("cidr"),
        651 => Some("_cidr"),
        700 => Some("float4"),
        _ => from_701(oid),
    }
}

fn from_701(oid: u32) -> Option<&'static str>
    ensures { option_map (λ name. name.now) result ≡ from_701 oid }
{
    match oid {
        701 => Some("float8"),
        705 => Some("unknown"),
        718 => Some("circle"),
        719 => Some("_circle"),
        774 => Some("macaddr8"),
        775 => Some("_macaddr8"),
        790 => Some("money"),
        791 => Some("_money"),
        829 => Some("macaddr"),
        869 => Some("inet"),
        1000 => Some("_bool"),
        1001 => Some("_bytea"),
        1002 => Some("_char"),
        1003 => Some("_name"),
        _ => from_1005(oid),
    }
}

fn from_1005(oid: u32) -> Option<&'static str>
    ensures { option_map (λ name. name.now) result ≡ from_1005 oid }
{
    match oid {
        1005 => Some("_int2"),
        1006 => Some("_int2vector"),
        1007 => Some("_int4"),
        1008 => Some("_regproc"),
        1009 => Some("_text"),
        1010 => Some("_tid"),
        1011 => Some("_xid"),
        1012 => Some("_cid"),
        1013 => Some("_oidvector"),
        1014 => Some("_bpchar"),
        1015 => Some("_varchar"),
        1016 => Some("_int8"),
        1017 => Some("_point"),
        1018 => Some("_lseg"),
        _ => from_1019(oid),
    }
}

fn from_1019(oid: u32) -> Option<&'static str>
    ensures { option_map (λ name. name.now) result ≡ from_1019 oid }
{
    match oid {
        1019 => Some("_path"),
        1020 => Some("_box"),
        1021 => Some("_float4"),
        1022 => Some("_float8"),
        1027 => Some("_polygon"),
        1028 => Some("_oid"),
        1033 => Some("aclitem"),
        1034 => Some("_aclitem"),
        1040 => Some("_macaddr"),
        1041 => Some("_inet"),
        1042 => Some("bpchar"),
        1043 => Some("varchar"),
        1082 => Some("date"),
        1083 => Some("time"),
        _ => from_1114(oid),
    }
}

fn from_1114(oid: u32) -> Option<&'static str>
    ensures { option_map (λ name. name.now) result ≡ from_1114 oid }
{
    match oid {
        1114 => Some("timestamp"),
        1115 => Some("_timestamp"),
        1182 => Some("_date"),
        1183 => Some("_time"),
        1184 => Some("timestamptz"),
        1185 => Some("_timestamptz"),
        1186 => Some("interval"),
        1187 => Some("_interval"),
        1231 => Some("_numeric"),
        1263 => Some("_cstring"),
        1266 => Some("timetz"),
        1270 => Some("_timetz"),
        1560 => Some("bit"),
        1561 => Some("_bit"),
        _ => from_1562(oid),
    }
}

fn from_1562(oid: u32) -> Option<&'static str>
    ensures { option_map (λ name. name.now) result ≡ from_1562 oid }
{
    match oid {
        1562 => Some("varbit"),
        1563 => Some("_varbit"),
        1700 => Some("numeric"),
        1790 => Some("refcursor"),
        2201 => Some("_refcursor"),
        2202 => Some("regprocedure"),
        2203 => Some("regoper"),
        2204 => Some("regoperator"),
        2205 => Some("regclass"),
        2206 => Some("regtype"),
        2207 => Some("_regprocedure"),
        2208 => Some("_regoper"),
        2209 => Some("_regoperator"),
        2210 => Some("_regclass"),
        _ => from_2211(oid),
    }
}

fn from_2211(oid: u32) -> Option<&'static str>
    ensures { option_map (λ name. name.now) result ≡ from_2211 oid }
{
    match oid {
        2211 => Some("_regtype"),
        2249 => Some("record"),
        2275 => Some("cstring"),
        2276 => Some("any"),
        2277 => Some("anyarray"),
        2278 => Some("void"),
        2279 => Some("trigger"),
        2280 => Some("language_handler"),
        2281 => Some("internal"),
        2283 => Some("anyelement"),
        2287 => Some("_record"),
        2776 => Some("anynonarray"),
        2949 => Some("_txid_snapshot"),
        2950 => Some("uuid"),
        _ => from_2951(oid),
    }
}

fn from_2951(oid: u32) -> Option<&'static str>
    ensures { option_map (λ name. name.now) result ≡ from_2951 oid }
{
    match oid {
        2951 => Some("_uuid"),
        2970 => Some("txid_snapshot"),
        3115 => Some("fdw_handler"),
        3220 => Some("pg_lsn"),
        3221 => Some("_pg_lsn"),
        3310 => Some("tsm_handler"),
        3361 => Some("pg_ndistinct"),
        3402 => Some("pg_dependencies"),
        3500 => Some("anyenum"),
        3614 => Some("tsvector"),
        3615 => Some("tsquery"),
        3642 => Some("gtsvector"),
        3643 => Some("_tsvector"),
        3644 => Some("_gtsvector"),
        _ => from_3645(oid),
    }
}

fn from_3645(oid: u32) -> Option<&'static str>
    ensures { option_map (λ name. name.now) result ≡ from_3645 oid }
{
    match oid {
        3645 => Some("_tsquery"),
        3734 => Some("regconfig"),
        3735 => Some("_regconfig"),
        3769 => Some("regdictionary"),
        3770 => Some("_regdictionary"),
        3802 => Some("jsonb"),
        3807 => Some("_jsonb"),
        3831 => Some("anyrange"),
        3838 => Some("event_trigger"),
        3904 => Some("int4range"),
        3905 => Some("_int4range"),
        3906 => Some("numrange"),
        3907 => Some("_numrange"),
        3908 => Some("tsrange"),
        _ => from_3909(oid),
    }
}

fn from_3909(oid: u32) -> Option<&'static str>
    ensures { option_map (λ name. name.now) result ≡ from_3909 oid }
{
    match oid {
        3909 => Some("_tsrange"),
        3910 => Some("tstzrange"),
        3911 => Some("_tstzrange"),
        3912 => Some("daterange"),
        3913 => Some("_daterange"),
        3926 => Some("int8range"),
        3927 => Some("_int8range"),
        4072 => Some("jsonpath"),
        4073 => Some("_jsonpath"),
        4089 => Some("regnamespace"),
        4090 => Some("_regnamespace"),
        4096 => Some("regrole"),
        4097 => Some("_regrole"),
        4191 => Some("regcollation"),
        _ => from_4192(oid),
    }
}

fn from_4192(oid: u32) -> Option<&'static str>
    ensures { option_map (λ name. name.now) result ≡ from_4192 oid }
{
    match oid {
        4192 => Some("_regcollation"),
        4451 => Some("int4multirange"),
        4532 => Some("nummultirange"),
        4533 => Some("tsmultirange"),
        4534 => Some("tstzmultirange"),
        4535 => Some("datemultirange"),
        4536 => Some("int8multirange"),
        4537 => Some("anymultirange"),
        4538 => Some("anycompatiblemultirange"),
        4600 => Some("pg_brin_bloom_summary"),
        4601 => Some("pg_brin_minmax_multi_summary"),
        5017 => Some("pg_mcv_list"),
        5038 => Some("pg_snapshot"),
        5039 => Some("_pg_snapshot"),
        _ => from_5069(oid),
    }
}

fn from_5069(oid: u32) -> Option<&'static str>
    ensures { option_map (λ name. name.now) result ≡ from_5069 oid }
{
    match oid {
        5069 => Some("xid8"),
        5077 => Some("anycompatible"),
        5078 => Some("anycompatiblearray"),
        5079 => Some("anycompatiblenonarray"),
        5080 => Some("anycompatiblerange"),
        6150 => Some("_int4multirange"),
        6151 => Some("_nummultirange"),
        6152 => Some("_tsmultirange"),
        6153 => Some("_tstzmultirange"),
        6155 => Some("_datemultirange"),
        6157 => Some("_int8multirange"),
        _ => None,
    }
}
