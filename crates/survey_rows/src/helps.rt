//! What to do about devices.
use service::Loss;
use service_alarms::Alarm;

/// What to do about a device that is lost or has no map.
pub(crate) fn device_help(alarm: Alarm) -> &'static str {
    match alarm {
        Alarm::DeviceLost(_, Some(loss)) => loss_help(loss),
        Alarm::DeviceUnmapped(_) => {
            "look for the switch for SunSpec in the device, or give its base; its unit may be another one"
        }
        _ => "look whether the device is on",
    }
}

fn loss_help(loss: Loss) -> &'static str {
    match loss {
        Loss::Down => {
            "look whether the device is on, its address and port are right, and nobody else has its one connection"
        }
        Loss::Silent => {
            "look whether its unit is right, and whether it answers with a longer --timeout"
        }
        Loss::Frame | Loss::Stale => "what answers there is no Modbus TCP server: look at its port",
        Loss::Gateway =>
            "its gateway answers for it: look at its cable and its supply, and whether its unit is right",
    }
}
