//! Lines that put foliage or choose the method for ground, and what an independent program says of each.

/// Fields that are missing, of a wrong type, least outside and greatest inside their ranges, and the faults of outlines.
pub(crate) const FOLIAGE: [(&str, &str); 17] = [
    (r#"{"do":"foliage","h":1}"#, "Missing,name"),
    (r#"{"do":"foliage","name":"f","h":1}"#, "Missing,points"),
    (
        r#"{"do":"foliage","name":7,"points":[[0,0],[1,0],[1,1]]}"#,
        "Missing,h",
    ),
    (
        r#"{"do":"foliage","name":7,"points":7,"h":1}"#,
        "WrongType,name",
    ),
    (
        r#"{"do":"foliage","name":"f","points":7,"h":"1"}"#,
        "WrongType,points",
    ),
    (
        r#"{"do":"foliage","name":"f","points":[[0,0],[1,0],[1,1,1]],"h":1}"#,
        "WrongType,points",
    ),
    (
        r#"{"do":"foliage","name":"f","points":[[0,0],[1,0],[1,1]],"h":null}"#,
        "WrongType,h",
    ),
    (
        r#"{"do":"foliage","name":"f/0","points":[[0,0],[1,0],[1,1]],"h":1}"#,
        "WrongType,name",
    ),
    (
        r#"{"do":"foliage","name":"f","points":[[0,0],[1,0],[1,1]],"h":1}"#,
        "put",
    ),
    (
        r#"{"do":"foliage","name":"f","points":[[-4000000,0],[4000000,0],[0,4000000]],"h":100000,"rho":7}"#,
        "put",
    ),
    (
        r#"{"do":"foliage","name":"f","points":[[0,0],[1,0],[1,4000001]],"h":0}"#,
        "OutOfRange,points,4000001",
    ),
    (
        r#"{"do":"foliage","name":"f","points":[[0,0],[1,0]],"h":0}"#,
        "OutOfRange,h,0",
    ),
    (
        r#"{"do":"foliage","name":"f","points":[[0,0],[1,0],[1,1]],"h":100001}"#,
        "OutOfRange,h,100001",
    ),
    (
        r#"{"do":"foliage","name":"f","points":[],"h":1}"#,
        "FewCorners,0",
    ),
    (
        r#"{"do":"foliage","name":"f","points":[[0,0],[1,0]],"h":1}"#,
        "FewCorners,2",
    ),
    (
        r#"{"do":"foliage","name":"f","points":[[0,0],[1,0],[2,0]],"h":1}"#,
        "FlatShape",
    ),
    (
        r#"{"do":"Foliage","name":"f","points":[[0,0],[1,0],[1,1]],"h":1}"#,
        "UnknownDo,Foliage",
    ),
];

/// The two methods, words of a wrong type and unknown ones; a word for air is looked at before.
pub(crate) const GROUND: [(&str, &str); 13] = [
    (r#"{"do":"set","ground":"general"}"#, "set"),
    (r#"{"do":"set","ground":"simple"}"#, "set"),
    (
        r#"{"do":"set","reach":1,"g":100,"air":"10/70","c0":1000,"ground":"simple"}"#,
        "set",
    ),
    (r#"{"do":"set","ground":7}"#, "WrongType,ground"),
    (r#"{"do":"set","ground":null}"#, "WrongType,ground"),
    (r#"{"do":"set","c0":"1","ground":7}"#, "WrongType,c0"),
    (r#"{"do":"set","air":"x","ground":7}"#, "WrongType,ground"),
    (r#"{"do":"set","ground":"soft"}"#, "UnknownKind,soft"),
    (r#"{"do":"set","ground":"Simple"}"#, "UnknownKind,Simple"),
    (r#"{"do":"set","ground":""}"#, "UnknownKind"),
    (
        r#"{"do":"set","ground":"soft","air":"10/80"}"#,
        "UnknownKind,10/80",
    ),
    (
        r#"{"do":"set","ground":"soft","air":"10/70"}"#,
        "UnknownKind,soft",
    ),
    (
        r#"{"do":"set","ground":"soft","c0":1001}"#,
        "OutOfRange,c0,1001",
    ),
];
