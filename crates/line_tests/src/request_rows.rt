//! Lines that ask for contours, line sources and earlier versions, and what an independent program says of each.

/// Fields that are missing, of a wrong type, least outside and greatest inside their ranges, and the first of two faults.
pub(crate) const REQUESTS: [(&str, &str); 23] = [
    (
        r#"{"do":"contour","name":"g","level":20001,"columns":0,"rows":0}"#,
        "OutOfRange,level,20001",
    ),
    (
        r#"{"do":"contour","name":"g","level":20000,"columns":4097,"rows":0}"#,
        "OutOfRange,columns,4097",
    ),
    (
        r#"{"do":"contour","name":"g","level":0,"columns":4096,"rows":4097}"#,
        "OutOfRange,rows,4097",
    ),
    (
        r#"{"do":"contour","name":"g","level":-1,"columns":4096,"rows":4096}"#,
        "OutOfRange,level,-1",
    ),
    (
        r#"{"do":"contour","name":"g","level":0,"columns":4096,"rows":4096}"#,
        "contour",
    ),
    (
        r#"{"do":"line","name":"l","kind":"aircraft","points":[[0,0]],"h":1,"lw":[1099,0,0,0,0,0,0,0],"dc":2001,"piece":999}"#,
        "OutOfRange,lw,1099",
    ),
    (
        r#"{"do":"line","name":"l","kind":"aircraft","points":[[0,0]],"h":1,"lw":[1100,13000,null,null,null,null,null,null],"dc":2001,"piece":999}"#,
        "OutOfRange,dc,2001",
    ),
    (
        r#"{"do":"line","name":"l","kind":"aircraft","points":[[0,0]],"h":1,"lw":[1100,13000,null,null,null,null,null,null],"dc":2000,"piece":999}"#,
        "OutOfRange,piece,999",
    ),
    (
        r#"{"do":"line","name":"l","kind":"aircraft","points":[[0,0]],"h":1,"lw":[1100,13000,null,null,null,null,null,null],"piece":1000}"#,
        "OutsideMethod,aircraft",
    ),
    (
        r#"{"do":"line","name":"l","kind":"tram","points":[[0,0]],"h":1,"lw":[1100,13000,null,null,null,null,null,null],"piece":1000}"#,
        "UnknownKind,tram",
    ),
    (
        r#"{"do":"line","name":"l","kind":"rail","points":[[0,0]],"h":1,"lw":[1100,13000,null,null,null,null,null,null],"piece":1000}"#,
        "FewCorners,1",
    ),
    (
        r#"{"do":"line","name":"l","kind":"rail","points":[[1,1],[1,1]],"h":1,"lw":[1100,13000,null,null,null,null,null,null],"piece":1000000}"#,
        "FlatShape",
    ),
    (
        r#"{"do":"line","name":"l","kind":"rail","points":[[-4000000,0],[-3000000,0]],"h":1,"lw":[1100,13000,null,null,null,null,null,null],"piece":1000000}"#,
        "line",
    ),
    (r#"{"do":"unline","name":"l"}"#, "unline"),
    (
        r#"{"do":"contour","name":"g/0","level":0,"columns":1}"#,
        "Missing,rows",
    ),
    (
        r#"{"do":"line","name":"l","kind":7,"points":[],"h":1,"lw":[],"dc":0}"#,
        "Missing,piece",
    ),
    (
        r#"{"do":"line","name":"l","kind":"rail","points":[],"h":1,"lw":[null,null,null,null,null,null,null,null],"dc":null,"piece":"1"}"#,
        "WrongType,dc",
    ),
    (r#"{"do":"undo"}"#, "Missing,to"),
    (r#"{"do":"undo","to":"1"}"#, "WrongType,to"),
    (r#"{"do":"undo","to":-1}"#, "OutOfRange,to,-1"),
    (r#"{"do":"undo","to":0}"#, "undo"),
    (r#"{"do":"undo","to":9223372036854775807}"#, "undo"),
    (r#"{"do":"undo","to":9223372036854775808}"#, "WrongType,to"),
];
