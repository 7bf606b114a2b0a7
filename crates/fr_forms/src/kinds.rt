//! How a row of the table is a form, and a step between a type and what is read and written. A part has the name of the
//! member or of the item that it is.

/// Objects of one member, by its name: what is in it are the parts of a variant, `{..}`, or all of it is one, `(..)` and,
/// where that has a name, `[..]`.
#[macro_export]
macro_rules! one_of {
    (form; $type:ident; $($name:literal $variant:ident
        $({ $($part:ident: $form:expr),* })? $(($whole:ident: $whole_form:expr))? $([$only:ident: $only_form:expr])?;)+
    ) => {
        $crate::Form::OneOf(&[$(($name,
            $($crate::Form::Object(&[$((stringify!($part), $form)),*]))? $($whole_form)? $($only_form)?
        )),+])
    };
    (read $alloc:ident $row:ident; $type:ident; $($name:literal $variant:ident
        $({ $($part:ident: $form:expr),* })? $(($whole:ident: $whole_form:expr))? $([$only:ident: $only_form:expr])?;)+
    ) => {{
        let (which, content) = $row.named();
        let mut variant = 0usize;
        $(
            if which == variant {
                $(
                    let mut _parts = content.parts();
                    $(let $part = _parts.take($alloc)?;)*
                    return Ok($type::$variant { $($part),* });
                )?
                $(
                    let $whole = $crate::Formed::from_row($alloc, content)?;
                    return Ok($type::$variant($whole));
                )?
                $(
                    let $only = $crate::Formed::from_row($alloc, content)?;
                    return Ok($type::$variant { $only });
                )?
            }
            variant = variant.wrapping_add(1);
        )+
        Err(Unread::Unusual)
    }};
    (write $value:ident $alloc:ident; $type:ident; $($name:literal $variant:ident
        $({ $($part:ident: $form:expr),* })? $(($whole:ident: $whole_form:expr))? $([$only:ident: $only_form:expr])?;)+
    ) => {
        match $value {
            $(
            $($type::$variant { $($part),* } => {
                let object = $crate::Object::new($alloc);
                $(let object = object.with(stringify!($part), $part)?;)*
                object.named($name)
            })?
            $($type::$variant($whole) => $crate::Object::new($alloc).with($name, $whole)?.value(),)?
            $($type::$variant { $only } => $crate::Object::new($alloc).with($name, $only)?.value(),)?
            )+
        }
    };
    (name $value:ident; $type:ident; $($name:literal $variant:ident
        $({ $($part:ident: $form:expr),* })? $(($whole:ident: $whole_form:expr))? $([$only:ident: $only_form:expr])?;)+
    ) => {
        match $value {
            $($type::$variant { .. } => stringify!($variant),)+
        }
    };
}

/// An object of parts, `{..}`, or an array of them, `[..]`: those of a struct, or what a function is given that makes
/// the type where they go together, `new`, and functions of their names give.
#[macro_export]
macro_rules! parts {
    (form; $type:ident { $($part:ident: $form:expr),+ }) => {
        $crate::Form::Object(&[$((stringify!($part), $form)),+])
    };
    (form; $type:ident [ $($part:ident: $form:expr),+ ]) => {
        $crate::Form::Tuple(&[$($form),+])
    };
    (form; $type:ident { $($part:ident $(($all:ident))?: $form:expr),+ } new($($given:ident),+)) => {
        $crate::Form::Object(&[$((stringify!($part), $form)),+])
    };
    (read $alloc:ident $row:ident; $type:ident { $($part:ident: $form:expr),+ }) => {{
        let mut parts = $row.parts();
        $(let $part = parts.take($alloc)?;)+
        Ok($type { $($part),+ })
    }};
    (read $alloc:ident $row:ident; $type:ident [ $($parts:tt)+ ]) => {
        $crate::parts! { read $alloc $row; $type { $($parts)+ } }
    };
    (read $alloc:ident $row:ident; $type:ident { $($part:ident $(($all:ident))?: $form:expr),+ } new($($given:ident),+)) => {{
        let mut parts = $row.parts();
        $(let $part = parts.take($alloc)?;)+
        $type::new($($given),+).ok_or(Unread::Unusual)
    }};
    (write $value:ident $alloc:ident; $type:ident { $($part:ident: $form:expr),+ }) => {{
        let object = $crate::Object::new($alloc);
        $(let object = object.with(stringify!($part), &$value.$part)?;)+
        object.value()
    }};
    (write $value:ident $alloc:ident; $type:ident [ $($part:ident: $form:expr),+ ]) => {{
        let mut items = Vec::new($alloc);
        $(items.push($value.$part.to_value($alloc)?)?;)+
        Ok(serde_json::Value::Array(items))
    }};
    (write $value:ident $alloc:ident; $type:ident { $($part:ident $(($all:ident))?: $form:expr),+ } new($($given:ident),+)) => {{
        let object = $crate::Object::new($alloc);
        $(let object = object.put(stringify!($part), $crate::written!($alloc, $value.$part() $(, $all)?))?;)+
        object.value()
    }};
}

/// A part of an object, or `all` the items of a list.
#[macro_export]
macro_rules! written {
    ($alloc:ident, $part:expr) => {
        $crate::Formed::to_value(&$part, $alloc)
    };
    ($alloc:ident, $list:expr, all) => {
        $crate::write_all($alloc, $list)
    };
}
