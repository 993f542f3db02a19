//! Two ways between two nodes.

/// From host to endpoint x there are two ways, through bridge left and through bridge right; host goes by left.
pub const TWO_WAYS: &str =
    r#"{"format":1,"buses":[{"name":"b0","binding":1,"media":4},{"name":"b1","binding":1,"media":4}],"nodes":[
{"name":"host","kind":"bridge","eid":8,"owner":null,"pool":null,"ports":[{"bus":"b0","address":"10"}],"rows":[{"first":17,"size":1,"port":0,"next":"left"}],"terminus":null},
{"name":"left","kind":"bridge","eid":16,"owner":null,"pool":null,"ports":[{"bus":"b0","address":"20"},{"bus":"b1","address":"22"}],"rows":[{"first":17,"size":1,"port":1,"next":"x"}],"terminus":null},
{"name":"right","kind":"bridge","eid":32,"owner":null,"pool":null,"ports":[{"bus":"b0","address":"30"},{"bus":"b1","address":"32"}],"rows":[{"first":17,"size":1,"port":1,"next":"x"}],"terminus":null},
{"name":"x","kind":"endpoint","eid":17,"owner":null,"pool":null,"ports":[{"bus":"b1","address":"40"}],"rows":[],"terminus":null}]}"#;

pub const RANKS_OF_TWO_WAYS: &str =
    r#"{"format":1,"levels":[],"places":[],"ranks":[{"node":"host","ranges":[{"first":17,"rank":2,"size":1}]},{"node":"left","ranges":[{"first":17,"rank":1,"size":1}]},{"node":"right","ranges":[{"first":17,"rank":1,"size":1}]}]}"#;
